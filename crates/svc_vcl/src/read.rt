//! The plan of a read.

ghost use Rattle.std.specs.Prelude.{◌≡◌, ◌<◌, ℕ, Option, Some, None, true, length, is_some, not, ◌&&◌, ◌==◌};
ghost use Rattle.svc_line.specs.Bits.{bits_of};
ghost use Rattle.svc_bus_laws.specs.LineTable.{LineTable};
ghost use Rattle.svc_bus_laws.specs.Search.{greatest};
ghost use Rattle.svc_bus_laws.specs.BusLine.{version_of_line};
ghost use Rattle.svc_bus_laws.specs.BusState.{BusState};
ghost use Rattle.svc_bus_laws.specs.BusSteps.{bus_read};
ghost use Rattle.svc_bus_laws.specs.BusView.{bus_by_version, bus_line_at, bus_supplied, bus_supplier, bus_view};
ghost use Rattle.svc_vcl.specs.Described.{IsReadRequest, line_with};
ghost use Rattle.svc_vcl.specs.Planned.{supplier_of};

use crate::search::{is_overtaken, nearest_version, newest_version, reusable_copy};
use svc_base::{Served, UnitId};
use svc_line::{Line, LineBits};
use svc_vol::VersionList;

/// What a read does.
#[derive(Clone, Copy)]
pub struct ReadPlan {
    /// Who supplies the value.
    pub served: Served,
    /// The unit's line after the read, with the value. It links to no unit.
    pub line: Line,
}

// The supplier and its value, if the unit's own line isn't it: the nearest earlier version, otherwise the spilled
// value, otherwise the newest committed version, otherwise the backing memory.
fn supplier(list: &VersionList, place: usize, spill: Option<u32>, backing: u32) -> (Served, u32)
    requires { place < length list.now.active }
    ensures served { (b : BusState) (t : LineTable) (a unit : ℕ)
        → IsReadRequest b t a list.now unit place spill backing
        → supplier_of result.0 ≡ bus_by_version b a (greatest place
        (λ q. is_some (version_of_line (bus_line_at b q a)))) }
    ensures value { (b : BusState) (t : LineTable) (a unit : ℕ) → IsReadRequest b t a list.now unit place spill backing
        → bus_supplied b place a (supplier_of result.0) ≡ Some result.1 }
{
    if let Some(version) = nearest_version(list.active(), place) {
        return (Served::Version(version.unit), version.line.value);
    }
    if let Some(value) = spill {
        return (Served::Spill, value);
    }
    match newest_version(list.committed()) {
        Some(version) => (Served::Committed(version.unit), version.line.value),
        None => (Served::Memory, backing),
    }
}

// The value is not the task's own, as the head's spilled version is.
fn is_first_use(place: usize, spill: Option<u32>) -> bool
    ensures { result ≡ not ((place == 0) && is_some spill) }
{
    place != 0 || spill.is_none()
}

/// The plan of a read by the unit of the task at a place: who supplies the value, and the unit's line after it, with
/// the value that the task sees. `spill` is the word's spilled value, and `backing` its value in memory.
pub fn plan_read(
    list: &VersionList,
    unit: UnitId,
    place: usize,
    spill: Option<u32>,
    backing: u32,
) -> ReadPlan
    requires { place < length list.now.active }
    ensures served { (b : BusState) (t : LineTable) (a : ℕ) → IsReadRequest b t a list.now unit.0 place spill backing
        → supplier_of result.served ≡ bus_supplier b place a }
    ensures value { (b : BusState) (t : LineTable) (a : ℕ) → IsReadRequest b t a list.now unit.0 place spill backing
        → result.line.value ≡ bus_view b place a }
    ensures line { (b : BusState) (t : LineTable) (a : ℕ) → IsReadRequest b t a list.now unit.0 place spill backing
        → (bus_read b place a).lines unit.0 a ≡ Some (line_with result.line.value (bits_of result.line.bits)) }
    ensures valid { (b : BusState) (t : LineTable) (a : ℕ) → IsReadRequest b t a list.now unit.0 place spill backing
        → (bits_of result.line.bits).valid ≡ true }
    ensures unlinked { result.line.next ≡ None }
{
    if let Some(own) = list.active()[place] {
        return ReadPlan {
            served: Served::Hit,
            line: Line {
                value: own.line.value,
                bits: own.line.bits,
                next: None,
            },
        };
    }
    if let Some(copy) = reusable_copy(list.committed(), unit) {
        return ReadPlan {
            served: Served::Reuse,
            line: Line {
                value: copy.line.value,
                bits: copy.line.bits.on_reuse(),
                next: None,
            },
        };
    }
    let (served, value) = supplier(list, place, spill, backing);
    let overtaken = is_overtaken(list.active(), list.active().len(), place);
    ReadPlan {
        served,
        line: Line {
            value,
            bits: LineBits::on_load(is_first_use(place, spill), overtaken),
            next: None,
        },
    }
}
