//! Effects that leave R, the register that counts opcode fetches.

ghost use Rattle.std.specs.Prelude.{◌≡◌};
ghost use Rattle.pac_exec.specs.Refresh.{leaves_refresh};

use pac_table::{BitOperation, ByteLoad, Effect};

/// Whether an effect neither asks R nor changes it, of those by which programs wait: jumps, loads of bytes but for those of I and R,
/// arithmetic of bytes, tests of bits, and the processor's states.
pub fn leaves_refresh(effect: Effect) -> bool
    ensures { result ≡ leaves_refresh effect }
{
    match effect {
        Effect::Control(_) | Effect::ByteArithmetic(_) | Effect::Jump(_) => true,
        Effect::ByteLoad(load) => matches!(load, ByteLoad::Load(_, _)),
        Effect::BitOperation(operation) => matches!(operation, BitOperation::Test(_)),
        _ => false,
    }
}
