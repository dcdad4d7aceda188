// Bytes as elements of objects. A list of bytes that is a far form of texts is its own spelling.
ghost use Rattle.std.specs.Prelude.{◌<◌, ◌^◌, List, ℕ};
ghost use Rattle.far_codec.specs.TextForm.{IsTextsForm};
ghost use Rattle.far_codec.specs.BytesLaws.{bytes_read_back, one_bytes_list};

use crate::elem::Elem;
use crate::texts::split_texts;
use far_types::Refusal;
use std::alloc::Global;

impl Elem for u8 {
    ghost in_range = { λ byte. byte < 2 ^ 8 };

    ghost has_spelling = { IsTextsForm };

    ghost spelling = { λ bytes. bytes };

    ghost meaning = { λ bytes. bytes };

    fn spell(alloc: Global, view: &[u8]) -> Result<Vec<u8>, Refusal> {
        Ok(Vec::from_slice(alloc, view)?)
    }

    fn unspell(alloc: Global, bytes: &[u8]) -> Result<Option<Vec<u8>>, Refusal> {
        match split_texts(bytes) {
            Some(_) => Ok(Some(Vec::from_slice(alloc, bytes)?)),
            None => Ok(None),
        }
    }

    fn spells(bytes: &[u8], view: &[u8]) -> bool {
        bytes == view
    }

    ghost reads_back = { bytes_read_back };

    ghost one_list = { one_bytes_list };
}
