//! Names of places.
use crate::keys::Key;
use crate::random::Random;
use crate::section::{Kind, Section};
use std::alloc::{AllocError, Global};

#[rattlefmt::skip]
const LATIN: &[&str] = &[
    "ka", "ri", "to", "ma", "ne", "lo", "vi", "sa", "bur", "wes", "ton", "ham", "dor", "ley", "fi", "gra", "no", "pe", "shi", "ru",
];

#[rattlefmt::skip]
const ACCENTED: &[&str] = &[
    "ñe", "ção", "é", "ü", "ô", "ka", "ri", "to", "ma", "ne", "lo", "vi", "sa", "bur", "wes", "ton",
];

#[rattlefmt::skip]
const CYRILLIC: &[&str] = &[
    "ка", "ри", "то", "ма", "не", "ло", "ви", "са", "бур", "вес", "тон", "хам", "дор", "ли", "фи", "гра", "но", "пе", "ши", "ру",
];

#[rattlefmt::skip]
const JAPANESE: &[&str] = &[
    "カ", "リ", "ト", "マ", "ネ", "ロ", "ヴィ", "サ", "ブル", "ウェス", "トン", "ハム", "ドル", "レイ", "フィ", "グラ", "ノ", "ペ", "シ", "ル",
];

#[rattlefmt::skip]
const CHINESE: &[&str] = &[
    "卡", "里", "托", "马", "内", "洛", "维", "萨", "布", "韦", "顿", "汉", "多", "利", "菲", "格", "诺", "佩", "希", "鲁",
];

/// What stands behind one name in five.
const BEHIND: &[&str] = &[" City", " Heights", " am See", " Springs", "-sur-Mer"];

/// Which languages a place has names in.
#[derive(Clone, Copy, PartialEq, Eq)]
pub(crate) enum Languages {
    English,
    All,
}

// A name of two to four syllables.
fn name_of(
    alloc: Global,
    random: &mut Random,
    syllables: &[&'static str],
) -> Result<String, AllocError> {
    let mut name = String::new(alloc);
    for _ in 0..random.below(3).saturating_add(2) {
        name.push_str(random.text_of(syllables))?;
    }
    Ok(name)
}

// A name in a language.
fn put_name(
    alloc: Global,
    random: &mut Random,
    key: Key,
    syllables: &[&'static str],
    section: &mut Section,
) -> Result<(), AllocError> {
    section.key(key)?;
    let name = name_of(alloc, random, syllables)?;
    section.text(name.as_str())
}

// A name by a pointer to the text of another language.
fn put_same(key: Key, at: u32, section: &mut Section) -> Result<(), AllocError> {
    section.key(key)?;
    section.pointer(at)
}

// The name in English; where it stands.
fn put_english(
    alloc: Global,
    random: &mut Random,
    key: Key,
    section: &mut Section,
) -> Result<u32, AllocError> {
    section.key(key)?;
    let mut name = name_of(alloc, random, LATIN)?;
    if random.chance(51) {
        name.push_str(random.text_of(BEHIND))?;
    }
    let at = section.place();
    section.text(name.as_str())?;
    Ok(at)
}

/// The names of a place, as a map.
pub(crate) fn put_names(
    alloc: Global,
    random: &mut Random,
    languages: Languages,
    section: &mut Section,
) -> Result<(), AllocError> {
    section.key(Key::Names)?;
    if languages == Languages::English {
        section.header(Kind::Map, 1)?;
        put_english(alloc, random, Key::English, section)?;
        return Ok(());
    }
    section.header(Kind::Map, 8)?;
    let at = put_english(alloc, random, Key::German, section)?;
    put_same(Key::English, at, section)?;
    put_name(alloc, random, Key::Spanish, ACCENTED, section)?;
    put_name(alloc, random, Key::French, ACCENTED, section)?;
    put_name(alloc, random, Key::Japanese, JAPANESE, section)?;
    put_same(Key::Portuguese, at, section)?;
    put_name(alloc, random, Key::Russian, CYRILLIC, section)?;
    put_name(alloc, random, Key::Chinese, CHINESE, section)
}
