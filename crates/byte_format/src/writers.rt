ghost use Rattle.std.specs.Prelude.{◌≡◌, ◌<◌, ◌^◌, ◌++◌, length, encode_utf8_all, OnOk};
ghost use Rattle.std.specs.List.{flat_map};
ghost use Rattle.byte_format.specs.Values.{u64_field, name_field, names_field, path_field, text_field};

use std::alloc::{AllocError, Global};
use tt_base::{Name, SharedPath, Text};

/// Writes a number of 8 bytes.
#[tactic(auto, unfolding(crate::specs::Values::u64_field))]
pub fn put_u64(out: &mut Vec<u8>, number: u64) -> Result<(), AllocError>
    ensures { OnOk result (out.new.items ≡ out.old.items ++ u64_field.spelled number) }
{
    out.extend_from_slice(&number.to_be_bytes())?;
    Ok(())
}

/// Writes a name.
#[tactic(auto, unfolding(crate::specs::Values::name_field))]
pub fn put_name(out: &mut Vec<u8>, name: &Name) -> Result<(), AllocError>
    ensures { OnOk result (out.new.items ≡ out.old.items ++ name_field.spelled name.now) }
{
    out.extend_from_slice(&name.0)?;
    Ok(())
}

/// Writes names, one behind the other.
fn put_each_name(out: &mut Vec<u8>, names: &[Name]) -> Result<(), AllocError>
    ensures { OnOk result (out.new.items ≡ out.old.items ++ flat_map name_field.spelled names.now) }
{
    for name in names {
        put_name(out, name)?;
    }
    Ok(())
}

/// Writes names behind their number.
#[tactic(auto, using(crate::proofs::ValueLaws::names_written))]
pub fn put_names(out: &mut Vec<u8>, names: &[Name]) -> Result<(), AllocError>
    ensures { OnOk result (out.new.items ≡ out.old.items ++ names_field.spelled names.now) }
{
    put_u64(out, names.len() as u64)?;
    put_each_name(out, names)
}

/// Writes a path behind its length.
#[tactic(auto, unfolding(crate::specs::Values::path_field, crate::specs::Values::u16_field))]
pub fn put_path(out: &mut Vec<u8>, path: &SharedPath) -> Result<(), AllocError>
    ensures { OnOk result (out.new.items ≡ out.old.items ++ path_field.spelled path.now) }
{
    let text = path.as_str();
    out.extend_from_slice(&(text.len() as u16).to_be_bytes())?;
    out.extend_from_slice(text.as_bytes())?;
    Ok(())
}

/// Writes a text in UTF-8 behind its length in bytes.
#[tactic(auto, unfolding(crate::specs::Values::text_field, crate::specs::Values::count_field, crate::specs::Values::u64_field))]
pub fn put_text(alloc: Global, out: &mut Vec<u8>, text: &Text) -> Result<(), AllocError>
    ensures { OnOk result (out.new.items ≡ out.old.items ++ text_field.spelled text.now) }
{
    let bytes = text.to_bytes(alloc)?;
    out.extend_from_slice(&(bytes.len() as u64).to_be_bytes())?;
    out.extend_from_slice(bytes.as_slice())?;
    Ok(())
}
