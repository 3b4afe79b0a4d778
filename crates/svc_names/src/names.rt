// A table of names.

ghost use Rattle.std.specs.Prelude.{◌≡◌, ◌≤◌, ◌<◌, length, option_map, true};
ghost use Rattle.std.specs.List.{AllWithin};
ghost use Rattle.std.specs.List.Sorted.{IsNonDecreasingBy};
ghost use Rattle.svc_names.specs.declared.name.Name.{Name};
ghost use Rattle.svc_names.specs.Near.{kind_start};
ghost use Rattle.svc_names.specs.Table.{are_named};

use crate::name::Name;
use crate::near::Near;
use svc_image::DATA_START;

/// A table of names, in the order of their addresses.
#[derive(Drop)]
pub struct Names {
    /// The names.
    pub(crate) list: Vec<Name>,
    pub ghost named: { are_named list.items ≡ true },
    pub ghost order: { IsNonDecreasingBy (λ (n : Name). n.address) list.items },
}

// Where the addresses of its kind begin: those of text, or those of data.
fn kind_start(address: u64) -> u64
    ensures { result ≡ kind_start address }
{
    let data = u64::from(DATA_START);
    if address < data { 0 } else { data }
}

impl Names {
    ghost use Rattle.svc_names.specs.Near.{kind_start, label, near_text, nearest};

    // How many of them have an address up to this one.
    fn count_to(&self, address: u64) -> usize
        ensures inside { result ≤ length self.now.list.items }
        ensures up_to { AllWithin (λ n. n.address ≤ address) self.now.list.items 0 result }
        ensures past { AllWithin (λ n. address < n.address) self.now.list.items result
            (length self.now.list.items) }
    {
        self.list
            .as_slice()
            .partition_point(|name| u64::from(name.address) <= address)
    }

    // Where the names of this address and those above begin.
    fn first_of(&self, address: u64) -> usize
        ensures inside { result ≤ length self.now.list.items }
        ensures before { AllWithin (λ n. n.address < address) self.now.list.items 0 result }
        ensures from { AllWithin (λ n. address ≤ n.address) self.now.list.items result
            (length self.now.list.items) }
    {
        if address == 0 {
            0
        } else {
            self.count_to(address - 1)
        }
    }

    /// The nearest name at or below an address, of its kind: text or data. Of several at one address it is the first.
    pub fn nearest(&self, address: u64) -> Option<Near<'_>>
        ensures { option_map near_text result ≡ option_map (label address) (nearest address self.now.list.items) }
    {
        let end = self.count_to(address);
        if end == 0 {
            return None;
        }
        let found = u64::from(self.list[end - 1].address);
        if found < kind_start(address) {
            return None;
        }
        let name = &self.list[self.first_of(found)];
        Some(Near {
            name: name.text.as_slice(),
            behind: address - found,
        })
    }
}
