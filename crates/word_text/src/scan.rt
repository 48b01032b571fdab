// Numbers in decimal, parted by spaces and line ends, read byte by byte.
ghost use Rattle.std.specs.Prelude.{◌≡◌, None, Some, MatchResult, alloc_error};
ghost use Rattle.word_text.specs.Scan.{number, digit_read, is_gap, moved, stepped, Advances, numbers_of};
ghost use Rattle.word_text.specs.declared.scan.ScanError.TheVariants.{NotNumbers, OutOfMemory};

use std::alloc::{AllocError, AllocFailed, Global};

// A number as far as it is read; the sign stands apart, since -0 may have digits to come.
#[derive(Clone, Copy)]
pub struct Numeral {
    pub negative: bool,
    pub size: u32,
}

// Where the reader is: between numbers, behind a minus, or inside a number.
#[derive(Clone, Copy)]
pub enum Place {
    Between,
    Minus,
    Inside(Numeral),
}

// Where a byte leads to, and the number that it ends, if it ends one.
#[derive(Clone, Copy)]
pub struct Progress {
    pub place: Place,
    pub number: Option<i64>,
}

// Why a text gives no numbers.
#[derive(Clone, Copy, PartialEq, Eq, Debug)]
pub enum ScanError {
    NotNumbers,
    OutOfMemory(AllocError),
}

impl<T: Drop> From<AllocFailed<T>> for ScanError {
    ghost from_gives = { λ _ error. error ≡ OutOfMemory alloc_error };

    fn from(failed: AllocFailed<T>) -> ScanError {
        ScanError::OutOfMemory(AllocError::from(failed))
    }
}

impl From<Numeral> for i64 {
    ghost from_gives = { λ numeral z. z ≡ number numeral };

    fn from(numeral: Numeral) -> i64 {
        let size = i64::from(numeral.size);
        if numeral.negative { -size } else { size }
    }
}

impl Numeral {
    // No digit yet, and no minus.
    const PLAIN: Numeral = Numeral {
        negative: false,
        size: 0,
    };

    // No digit yet, behind a minus.
    const NEGATIVE: Numeral = Numeral {
        negative: true,
        size: 0,
    };

    // One digit more, while the number has at most nine.
    fn digit(self, byte: u8) -> Option<Progress>
        ensures { result ≡ digit_read self byte }
    {
        if !byte.is_ascii_digit() || self.size >= 100000000 {
            return None;
        }
        let size = self.size * 10 + u32::from(byte - b'0');
        moved(Place::Inside(Numeral { size, ..self }))
    }
}

// To this place, with no number ended.
fn moved(place: Place) -> Option<Progress>
    ensures { result ≡ moved place }
{
    Some(Progress {
        place,
        number: None,
    })
}

fn is_gap(byte: u8) -> bool
    ensures { result ≡ is_gap byte }
{
    matches!(byte, b' ' | b'\n' | b'\r')
}

// None where the byte doesn't fit.
pub fn step(place: Place, byte: u8) -> Option<Progress>
    ensures { result ≡ stepped place byte }
{
    match place {
        Place::Between if is_gap(byte) => moved(Place::Between),
        Place::Between if byte == b'-' => moved(Place::Minus),
        Place::Between => Numeral::PLAIN.digit(byte),
        Place::Minus => Numeral::NEGATIVE.digit(byte),
        Place::Inside(numeral) if is_gap(byte) => Some(Progress {
            place: Place::Between,
            number: Some(numeral.into()),
        }),
        Place::Inside(numeral) => numeral.digit(byte),
    }
}

// Takes a byte, and notes the number that it ends.
fn advance(found: &mut Vec<i64>, place: Place, byte: u8) -> Result<Place, ScanError>
    ensures { Advances (stepped place byte) found.old.items result found.new.items }
{
    let progress = step(place, byte).ok_or(ScanError::NotNumbers)?;
    if let Some(number) = progress.number {
        found.push(number)?;
    }
    Ok(progress.place)
}

// The numbers of a text, which ends as if a space came after it.
#[tactic(auto, using(crate::proofs::Scanned::scan_steps))]
pub fn numbers(heap: Global, text: &[u8]) -> Result<Vec<i64>, ScanError>
    ensures { MatchResult result (λ found. numbers_of text.now ≡ Some found.items) (λ error. error ≡ NotNumbers → numbers_of text.now ≡ None) }
{
    let mut found = Vec::new(heap);
    let mut place = Place::Between;
    for byte in text {
        place = advance(&mut found, place, *byte)?;
    }
    advance(&mut found, place, b' ')?;
    Ok(found)
}
