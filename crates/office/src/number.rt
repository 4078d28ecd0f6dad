// The numbers of the command language.
ghost use Rattle.std.specs.Prelude.{◌↔◌, IsTrue};
ghost use Rattle.std.specs.Str.Parse.{IsNumeral};
ghost use Rattle.office.specs.Numbers.{Whole, Tenths, WithTenth};

// A whole number. One that is too large for the type counts as the largest.
pub fn whole(word: &str) -> Option<u32>
    ensures { Whole 32 word.now result }
{
    is_numeral(word).then(|| word.parse().unwrap_or(u32::MAX))
}

// Whether the word is digits alone.
fn is_numeral(word: &str) -> bool
    ensures { IsTrue result ↔ IsNumeral 10 word.now }
{
    !word.is_empty() && word.bytes().all(|byte| byte.is_ascii_digit())
}

// Miles in tenths, with at most one digit after the point.
pub fn tenths(word: &str) -> Option<u32>
    ensures { Tenths word.now result }
{
    match word.split_once('.') {
        None => Some(whole(word)?.saturating_mul(10)),
        Some((miles, tenth)) => with_tenth(miles, tenth),
    }
}

fn with_tenth(miles: &str, tenth: &str) -> Option<u32>
    ensures { WithTenth miles.now tenth.now result }
{
    if tenth.len() != 1 {
        return None;
    }
    let miles = whole(miles)?.saturating_mul(10);
    Some(miles.saturating_add(whole(tenth)?))
}
