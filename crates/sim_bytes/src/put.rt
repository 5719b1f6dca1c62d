//! Numbers at the end of a list of bytes, the lowest byte first. A list keeps its allocator, so none is handed in; a
//! refused call leaves the list as it was.

ghost use Rattle.std.specs.Prelude.{[], OnErr, OnOk, ◌++◌, ◌∷◌, ◌≡◌};
ghost use Rattle.sim_base.specs.Spelling.{i32_bytes, u16_bytes, u32_bytes, u64_bytes};

use sim_base::OutOfMemory;

/// Appends one byte.
pub fn put_u8(out: &mut Vec<u8>, value: u8) -> Result<(), OutOfMemory>
    ensures ok { OnOk result (out.new.items ≡ out.old.items ++ value ∷ []) }
    ensures err { OnErr result (out.new.items ≡ out.old.items) }
{
    out.push(value)?;
    Ok(())
}

/// Appends two bytes.
#[tactic(auto, unfolding(sim_base::specs::Spelling::u16_bytes))]
pub fn put_u16(out: &mut Vec<u8>, value: u16) -> Result<(), OutOfMemory>
    ensures ok { OnOk result (out.new.items ≡ out.old.items ++ u16_bytes value) }
    ensures err { OnErr result (out.new.items ≡ out.old.items) }
{
    out.extend_from_slice(&value.to_le_bytes())?;
    Ok(())
}

/// Appends four bytes.
#[tactic(auto, unfolding(sim_base::specs::Spelling::u32_bytes))]
pub fn put_u32(out: &mut Vec<u8>, value: u32) -> Result<(), OutOfMemory>
    ensures ok { OnOk result (out.new.items ≡ out.old.items ++ u32_bytes value) }
    ensures err { OnErr result (out.new.items ≡ out.old.items) }
{
    out.extend_from_slice(&value.to_le_bytes())?;
    Ok(())
}

/// Appends eight bytes.
#[tactic(auto, unfolding(sim_base::specs::Spelling::u64_bytes))]
pub fn put_u64(out: &mut Vec<u8>, value: u64) -> Result<(), OutOfMemory>
    ensures ok { OnOk result (out.new.items ≡ out.old.items ++ u64_bytes value) }
    ensures err { OnErr result (out.new.items ≡ out.old.items) }
{
    out.extend_from_slice(&value.to_le_bytes())?;
    Ok(())
}

/// Appends four bytes, in two's complement.
#[tactic(auto, unfolding(sim_base::specs::Spelling::i32_bytes, sim_base::specs::Spelling::u32_bytes))]
pub fn put_i32(out: &mut Vec<u8>, value: i32) -> Result<(), OutOfMemory>
    ensures ok { OnOk result (out.new.items ≡ out.old.items ++ i32_bytes value) }
    ensures err { OnErr result (out.new.items ≡ out.old.items) }
{
    put_u32(out, value.cast_unsigned())
}
