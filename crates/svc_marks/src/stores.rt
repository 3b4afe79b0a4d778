// Where each unit last stored each word.

ghost use Rattle.std.specs.Prelude.{◌≡◌, None, Option, Some, OnOk, cond};
ghost use Rattle.svc_base.specs.declared.ids.UnitId.{UnitId};
ghost use Rattle.svc_base.specs.declared.ids.WordAddr.{WordAddr};
ghost use Rattle.svc_marks.specs.Marks.{stores};
ghost use Rattle.svc_marks.specs.Stores.{last_store};

use std::alloc::{AllocError, Global};
use std::collections::HashMap;
use svc_base::{UnitId, WordAddr};
use svc_history_laws::Entry;
use svc_task_runs::stores_in;

/// Where each unit last stored each word: the index of an entry.
#[derive(Drop)]
pub(crate) struct LastStores {
    pub(crate) places: HashMap<(u8, u32), u64>,
}

impl LastStores {
    /// No stores.
    pub(crate) fn none(alloc: Global) -> LastStores
        ensures { (unit : UnitId) (word : Option WordAddr) → last_store result unit word ≡ None }
    {
        LastStores {
            places: HashMap::new(alloc),
        }
    }

    /// Where the unit last stored the word.
    pub(crate) fn last(&self, unit: UnitId, word: Option<WordAddr>) -> Option<u64>
        ensures { result ≡ last_store self.now unit word }
    {
        match word {
            Some(word) => self.places.get(&(unit.0, word.0)).copied(),
            None => None,
        }
    }

    /// Takes in the entry at an index, which may be a store.
    pub(crate) fn note(&mut self, at: u64, entry: &Entry) -> Result<(), AllocError>
        ensures { OnOk result ((unit : UnitId) (word : Option WordAddr) → last_store self.new unit word
            ≡ cond (stores unit word entry.now) (Some at) (last_store self.old unit word)) }
    {
        let Some(word) = entry.addr else {
            return Ok(());
        };
        if stores_in(entry) {
            self.places.insert((entry.unit.0, word.0), at)?;
        }
        Ok(())
    }
}
