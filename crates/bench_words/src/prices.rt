// A price as a person writes it: a decimal number with up to eight places.
ghost use Rattle.std.specs.Prelude.{◌≡◌, Some};
ghost use Rattle.bench_words.specs.Prices.{above, amount_of, below, digits_of, places_of, raw_of, sum_of};

// What digits alone are worth.
#[tactic(auto, using(crate::proofs::Numerals::read_digits), unfolding(crate::specs::Prices::digits_of))]
fn digits(word: &str) -> Option<u64>
    ensures { result ≡ digits_of word.now }
{
    if word.starts_with('+') {
        return None;
    }
    word.parse().ok()
}

#[tactic(auto, unfolding(crate::specs::Prices::places_of))]
// What stands behind the point, in hundred-millionths.
fn places(word: &str) -> Option<u64>
    ensures { result ≡ places_of word.now }
{
    let count = word.len();
    if count > 8 {
        return None;
    }
    digits(word)?.checked_mul(10u64.pow(8 - count as u32))
}

// Whole ones and hundred-millionths.
fn sum(whole: u64, places: u64) -> Option<u64>
    ensures { result ≡ sum_of (Some whole) (Some places) }
{
    whole.checked_mul(100_000_000)?.checked_add(places)
}

#[tactic(auto, unfolding(crate::specs::Prices::amount_of))]
// A decimal number with no sign, in hundred-millionths.
fn amount(word: &str) -> Option<u64>
    ensures { result ≡ amount_of word.now }
{
    match word.split_once('.') {
        Some((whole, rest)) => sum(digits(whole)?, places(rest)?),
        None => sum(digits(word)?, 0),
    }
}

// An amount with no sign in front, as a signed number.
fn positive(word: &str) -> Option<i64>
    ensures { result ≡ above (amount_of word.now) }
{
    0i64.checked_add_unsigned(amount(word)?)
}

// An amount behind a minus.
fn negative(word: &str) -> Option<i64>
    ensures { result ≡ below (amount_of word.now) }
{
    0i64.checked_sub_unsigned(amount(word)?)
}

/// A decimal number, in hundred-millionths; none where it has another form, more than eight places, or does not fit.
#[tactic(auto, unfolding(crate::specs::Prices::raw_of))]
pub(crate) fn hundred_millionths(word: &str) -> Option<i64>
    ensures { result ≡ raw_of word.now }
{
    match word.strip_prefix('-') {
        Some(rest) => negative(rest),
        None => positive(word),
    }
}
