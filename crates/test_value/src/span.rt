//! A type of one's own that is known by its own relation alone: where a value stands, whatever it is.
ghost use Rattle.std.specs.Prelude.{◌≡◌, true, false, IfOk};
ghost use Rattle.mmdb_decode.specs.State.{State, begin};
ghost use Rattle.mmdb_decode.specs.Errors.{IsRead};
ghost use Rattle.mmdb_decode.specs.Skipping.{skip_at};
ghost use Rattle.test_value.specs.Span.{IsSpanOf};

use mmdb_decode::decoder::Decoder;
use mmdb_format::error::DecodeResult;
use mmdb_record::decode::Decode;
use mmdb_record::first_value;
use std::alloc::Global;

/// The offsets at which a value begins and ends.
#[derive(Debug, Drop, PartialEq, Eq)]
pub struct Span {
    pub begin: usize,
    pub end: usize,
}

impl<'de> Decode<'de> for Span {
    ghost Datum = { Unit {0} };

    ghost datum = { λ _. tt };

    ghost meaning = { skip_at };

    ghost starts = { true };

    ghost free = { true };

    ghost exact = { false };

    ghost also = { IsSpanOf };

    #[tactic(auto, using(mmdb_decode::proofs::StepLaws::kept_decoded))]
    fn decode(alloc: Global, d: &mut Decoder<'de>) -> DecodeResult<Span> {
        let begin = d.offset();
        d.skip_value(alloc)?;
        Ok(Span {
            begin,
            end: d.offset(),
        })
    }
}

/// Where the value at the beginning of a section ends.
pub fn first_end(alloc: Global, section: &[u8]) -> DecodeResult<usize>
    ensures { IfOk result (λ end. (after : State)
        × IsRead true skip_at (begin section.now 0) tt after × (end ≡ after.offset)) }
{
    let span = first_value::decode::<Span>(alloc, section)?;
    Ok(span.end)
}
