//! Pointers.
ghost use Rattle.std.specs.Prelude.{◌≡◌, ◌<◌, ◌++◌, OnOk};
ghost use Rattle.mmdb_section.specs.Bytes.{pointer_bytes};
ghost use Rattle.mmdb_section.specs.Working.{Appends, IsPointer};

use std::alloc::AllocError;

// The shortest pointer to an offset ("Data Field Format" of the specification, pointer - 1).
pub(crate) fn push_pointer(out: &mut Vec<u8>, target: u32) -> Result<(), AllocError>
    ensures says { OnOk result (Appends (IsPointer target) out.old.items out.new.items) }
    ensures bytes { OnOk result (out.new.items ≡ out.old.items ++ pointer_bytes target) }
{
    if target < 2_048 {
        out.extend_from_slice(&[32 + (target / 256) as u8, (target % 256) as u8])
    } else if target < 526_336 {
        let above = target - 2_048;
        out.extend_from_slice(&[
            40 + (above / 65_536) as u8,
            (above / 256 % 256) as u8,
            (above % 256) as u8,
        ])
    } else if target < 134_744_064 {
        let above = target - 526_336;
        out.extend_from_slice(&[
            48 + (above / 16_777_216) as u8,
            (above / 65_536 % 256) as u8,
            (above / 256 % 256) as u8,
            (above % 256) as u8,
        ])
    } else {
        out.extend_from_slice(&[
            56,
            (target / 16_777_216) as u8,
            (target / 65_536 % 256) as u8,
            (target / 256 % 256) as u8,
            (target % 256) as u8,
        ])
    }
}
