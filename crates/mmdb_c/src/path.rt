//! The steps of a path: to a key of a map, and to an element of an array.
ghost use Rattle.std.specs.Prelude.{◌≡◌, ◌||◌, nat_eq, IsTrue, true, false, Some, None};
ghost use Rattle.std.specs.Str.{IsUtf8};
ghost use Rattle.mmdb_c.specs.Items.{key_leads, element_leads, is_step_status};

use crate::status::{FOUND, INVALID_DATA, INVALID_PATH, NOT_THERE};
use mmdb_decode::decoder::Decoder;
use mmdb_decode::direct::text_of;

/// Goes from the map at an offset to the value of its first pair with this key: 0 where there is one, 9 where
/// there is none, 7 where no map is there or an error is met before the pair, 8 where the key is not UTF-8.
#[unsafe(no_mangle)]
pub extern "C" fn mmdb_c_to_key(section: &[u8], offset: usize, key: &[u8], to: &mut usize) -> u32
    ensures statuses { IsTrue (is_step_status result || nat_eq result 8) }
    ensures found { result ≡ 0 → key_leads key.now section.now offset ≡ Some (Some to.new) }
    ensures none { result ≡ 9 → key_leads key.now section.now offset ≡ Some None }
    ensures rejected { result ≡ 7 → key_leads key.now section.now offset ≡ None }
    ensures no_text { result ≡ 8 → ¬ (IsUtf8 key.now) }
{
    let Ok(key) = text_of(key) else {
        return INVALID_PATH;
    };
    let mut d = Decoder::new(section, offset);
    match d.go_to_key(key) {
        Ok(true) => {
            *to = d.offset();
            FOUND
        }
        Ok(false) => NOT_THERE,
        Err(_) => INVALID_DATA,
    }
}

/// Goes from the array at an offset to an element, counted from the front: 0, 9 and 7 as of `mmdb_c_to_key`.
#[unsafe(no_mangle)]
pub extern "C" fn mmdb_c_to_element(
    section: &[u8],
    offset: usize,
    index: usize,
    to: &mut usize,
) -> u32
    ensures statuses { IsTrue (is_step_status result) }
    ensures found { result ≡ 0 → element_leads index section.now offset ≡ Some (Some to.new) }
    ensures none { result ≡ 9 → element_leads index section.now offset ≡ Some None }
    ensures rejected { result ≡ 7 → element_leads index section.now offset ≡ None }
{
    let mut d = Decoder::new(section, offset);
    match d.go_to_index(index) {
        Ok(true) => {
            *to = d.offset();
            FOUND
        }
        Ok(false) => NOT_THERE,
        Err(_) => INVALID_DATA,
    }
}
