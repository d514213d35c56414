//! A field is added behind the bytes of those before it. What is written is a value of its type,
//! which the last clause of each tells.
ghost use Rattle.std.specs.Prelude.{◌≡◌, ◌<◌, ◌≤◌, ◌^◌, ◌++◌, length, OnOk};
ghost use Rattle.std.specs.List.{AllByRecursion, flat_map};
ghost use Rattle.aseba_tree.specs.Inside.{IsShort};
ghost use Rattle.aseba_payload.specs.Layout.{word_bytes, text_bytes, param_bytes, params_bytes, AreCounted, IsByte, IsWord, IsParam};

use aseba_tree::Param;
use aseba_words::{List, Mem, Name};
use byteorder::{ByteOrder, LittleEndian};

pub fn word(out: &mut Vec<u8>, word: u16) -> Result<(), Mem>
    ensures written { OnOk result (out.new.items ≡ out.old.items ++ word_bytes word) }
    ensures value { IsWord word }
{
    let mut bytes = [0; 2];
    LittleEndian::write_u16(&mut bytes, word);
    out.extend_from_slice(&bytes)?;
    Ok(())
}

pub fn text(out: &mut Vec<u8>, text: &Name) -> Result<(), Mem>
    requires { IsShort text.now }
    ensures written { OnOk result (out.new.items ≡ out.old.items ++ text_bytes text.now) }
    ensures value { AllByRecursion IsByte text.now }
{
    let bytes = text.as_bytes();
    out.push(bytes.len() as u8)?;
    out.extend_from_slice(bytes)?;
    Ok(())
}

fn param(out: &mut Vec<u8>, param: &Param) -> Result<(), Mem>
    requires { IsShort param.now.name }
    ensures written { OnOk result (out.new.items ≡ out.old.items ++ param_bytes param.now) }
    ensures value { OnOk result (IsParam param.now) }
{
    let mut bytes = [0; 2];
    LittleEndian::write_i16(&mut bytes, param.size);
    out.extend_from_slice(&bytes)?;
    text(out, &param.name)
}

pub fn params(out: &mut Vec<u8>, params: &List<Param>) -> Result<(), Mem>
    requires { AreCounted params.now }
    ensures written { OnOk result (out.new.items ≡ out.old.items ++ params_bytes params.now) }
    ensures value { OnOk result (AllByRecursion IsParam params.now) }
{
    let params = params.as_slice();
    word(out, params.len() as u16)?;
    for one in params {
        param(out, one)?;
    }
    Ok(())
}

pub fn words(out: &mut Vec<u8>, words: &List<u16>) -> Result<(), Mem>
    ensures written { OnOk result (out.new.items ≡ out.old.items ++ flat_map word_bytes words.now) }
    ensures value { AllByRecursion IsWord words.now }
{
    for one in words.as_slice() {
        word(out, *one)?;
    }
    Ok(())
}
