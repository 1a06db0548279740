//! What the model of databases side by side says of lookups, as the contract of a function that does nothing.
ghost use Rattle.mmdb_compare.specs.Agreeing.{AllIsLeft, LeftGoesOn, LeftAfterUnread, AnswersAgree, IsFoundAsAnswered};

use mmdb_reader::LookupResult;
use std::convert::AsSlice;

/// Where a database that is walked in a range has a record at an address, a lookup of the address finds it: at the offset
/// that the walk has. What is left of the range are leaves of it, at the beginning, further on, and after a leaf that can't
/// be read.
pub fn answers_agree_with_lookups()
    ensures begins { AllIsLeft }
    ensures goes_on { LeftGoesOn }
    ensures after_unread { LeftAfterUnread }
    ensures agree { AnswersAgree }
{}

/// What a lookup of such an address finds, in words of `Together::found` and `Together::answers`: something, with the
/// offset that the walk has there.
pub fn found_as_answered<S: AsSlice<u8> + Drop>(found: &Option<LookupResult<'_, S>>)
    ensures { IsFoundAsAnswered found.now }
{}
