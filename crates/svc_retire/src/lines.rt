//! A commit and a squash, in the lines of caches.

ghost use Rattle.std.specs.Prelude.{◌≡◌, ◌<◌, ℕ, cond, length, get_or};
ghost use Rattle.svc_cache.specs.Lines.{commit_line, squash_line};
ghost use Rattle.svc_cache.specs.Places.{line_of};
ghost use Rattle.svc_bus_laws.specs.LineTable.{is_cut};
ghost use Rattle.svc_retire.specs.Caches.{held_line, SameSizes};

use svc_cache::Cache;
use svc_order::TaskQueue;

/// The head, whose cache this is, is committed: C is set on its active lines. Nothing is written back.
pub fn commit_lines(cache: &mut Cache)
    ensures lines { (a : ℕ) → line_of cache.new a ≡ commit_line (line_of cache.old a) }
    ensures sets { cache.new.sets ≡ cache.old.sets }
    ensures ways { cache.new.ways ≡ cache.old.ways }
{
    cache.for_commit();
}

/// The tasks from a position on are squashed: all active lines of their units become invalid.
pub fn squash_lines(caches: &mut [Cache], queue: &TaskQueue, position: usize)
    requires { (p : ℕ) → p < length queue.now → get_or queue.now p 0 < length caches.old }
    ensures lines { (u a : ℕ) → held_line caches.new u a ≡ cond (is_cut queue.now position u)
        (squash_line (held_line caches.old u a)) (held_line caches.old u a) }
    ensures sizes { SameSizes caches.old caches.new }
{
    for cut in position..queue.len() {
        let unit = queue.unit_at(cut).0 as usize;
        caches[unit].for_squash();
    }
}
