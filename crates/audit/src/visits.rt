// One fault that may be there, counted and laid.
ghost use Rattle.std.specs.Prelude.{◌<◌, ◌^◌, eqb};
ghost use Rattle.faults.specs.Faults.{fault_if};
ghost use Rattle.audit.specs.Steps.{Visited};

use super::Stand;
use records::{Fault, Pen};

// One fault, where its bit is set.
pub(crate) fn visit(bit: u32, fault: Fault, list: &mut [u8], s: Stand) -> Stand
    requires { s.total < 2 ^ 31 }
    ensures { Visited list.old s (fault_if (eqb bit 1) fault) 1 list.new result }
{
    if bit == 1 {
        let total = s.total + 1;
        let pen = records::put(list, s.pen, fault);
        return Stand { pen, total };
    }
    // field by field: as a whole it would go through memory
    let pen = s.pen;
    Stand {
        pen: Pen {
            at: pen.at,
            live: pen.live,
        },
        total: s.total,
    }
}
