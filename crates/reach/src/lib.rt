// How a line is reached: by the record that holds it, else where its name maps to.
#![tactic(auto)]

ghost use Rattle.std.specs.Prelude.{◌≡◌, ◌*◌, length};
ghost use Rattle.address.specs.Addresses.{name_of};
ghost use Rattle.lines.specs.Premises.{Lined};
ghost use Rattle.reach.specs.Reach.{way_of};

use address::Global;
use lines::LineRecords;
use pages::PageMap;

// How a line is reached: by the record that holds it, or by its physical line. The bool is the permission to write.
#[derive(Clone, Copy)]
pub enum Way {
    Held(usize, bool),
    InMemory(usize, bool),
}

// How the line of this address is reached, if it is.
pub fn way_to(map: &PageMap, records: &[u64], g: Global) -> Option<Way>
    requires { Lined map.now.shape × (length records.now ≡ 2 * map.now.shape.lines) }
    ensures { result ≡ way_of map.now.shape map.now.words.now records.now (name_of g) }
{
    let held = LineRecords {
        shape: map.shape,
        records,
    };
    match held.holder_of(g.name()) {
        Some(i) => {
            let l = lines::line_at(records, i);
            Some(Way::Held(i, l.write))
        }
        None => {
            let home = map.home_of(g)?;
            Some(Way::InMemory(home.line, home.write))
        }
    }
}
