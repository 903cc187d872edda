//! The registers at power-on.

ghost use Rattle.std.specs.Prelude.{◌≡◌};
ghost use Rattle.pac_cpu.specs.Power.{power_on_regs};

use pac_exec::{Alternate, Regs};
use pac_table::InterruptMode;

/// Each register 0; both sets are alike.
pub(crate) fn blank() -> Regs
    ensures { result ≡ power_on_regs }
{
    let set = Alternate {
        a: 0,
        f: 0,
        b: 0,
        c: 0,
        d: 0,
        e: 0,
        h: 0,
        l: 0,
    };
    Regs {
        a: set.a,
        f: set.f,
        b: set.b,
        c: set.c,
        d: set.d,
        e: set.e,
        h: set.h,
        l: set.l,
        alternate: set,
        ix: 0,
        iy: 0,
        sp: 0,
        pc: 0,
        i: 0,
        r: 0,
        iff1: false,
        iff2: false,
        mode: InterruptMode::Zero,
        halted: false,
        after_ei: false,
    }
}
