//! What takes chosen networks.
ghost use Rattle.std.specs.Prelude.{◌≡◌, ℕ, List, Option, IfOk, IfErr};
ghost use Rattle.mmdb_query.specs.Had.{Had};
ghost use Rattle.mmdb_query.specs.Ends.{Leaves};
ghost use Rattle.mmdb_query.specs.Taking.{IsDone, IsDoneOrNot};
ghost use Rattle.mmdb_query.specs.declared.error.QueryError.{QueryError as SpecError};

use crate::answer::Answer;
use crate::error::QueryError;
use mmdb_reader::MaxMindDbError;
use std::io::Write;

/// Takes chosen networks, with what databases have for them, one by one.
pub trait Sink {
    /// How it takes them, which stays the same.
    ghost Form: { Type 0 };

    ghost form: { Self → Form };

    /// What it took so far, beside what it wrote.
    ghost Took: { Type 0 };

    ghost took: { Self → Took };

    /// What was taken before a network, what is written of it, and what was taken with it. It is of records at offsets of these
    /// data sections.
    ghost puts: { Form → List (List ℕ) → Had → Took → List ℕ → Took → Type 0 };

    /// What it needs of the records at these offsets can't be read.
    ghost is_unread: { Form → List (List ℕ) → List (Option ℕ) → Type 0 };

    /// What may be written of a network that it does not take, by what was taken before, and why. Where the output can't be written
    /// nothing is said.
    ghost leaves: { Form → List (List ℕ) → Had → Took → List ℕ → SpecError → Type 0 };

    /// All that it keeps by numbers of records is of records of these data sections.
    ghost fits: { List (List ℕ) → Self → Type 0 };

    /// Takes a network at once, where all that this needs is at hand, as for most. Whether it was taken; else nothing was written.
    /// An `Err` is as that of `put`.
    fn put_kept<A: Answer, O: Write>(&mut self, answer: &A, out: &mut O) -> Result<bool, QueryError>
        requires { fits (A.sections answer.now) self.old }
        ensures done { IfOk result (λ is_done. IsDoneOrNot
            (puts (form self.old) (A.sections answer.now) (A.had answer.now))
            is_done (took self.old) (took self.new) (O.contents out.old) (O.contents out.new)) }
        ensures failed { IfErr result (Leaves
            (leaves (form self.old) (A.sections answer.now) (A.had answer.now) (took self.old))
            (O.contents out.old) (O.contents out.new)) }
        ensures fits { fits (A.sections answer.now) self.new }
        ensures form { form self.new ≡ form self.old };

    /// Takes a network, or answers why what it needs can't be read, unless out of memory. An `Err` is of the output, or of memory,
    /// or the network does not come after all others: then what was written is what the sink leaves.
    fn put<A: Answer, O: Write>(
        &mut self,
        answer: &A,
        out: &mut O,
    ) -> Result<Option<MaxMindDbError>, QueryError>
        requires { fits (A.sections answer.now) self.old }
        ensures done { IfOk result (λ unread. IsDone
            (puts (form self.old) (A.sections answer.now) (A.had answer.now))
            (is_unread (form self.old) (A.sections answer.now) (A.had answer.now).offsets)
            unread (took self.old) (took self.new) (O.contents out.old) (O.contents out.new)) }
        ensures failed { IfErr result (Leaves
            (leaves (form self.old) (A.sections answer.now) (A.had answer.now) (took self.old))
            (O.contents out.old) (O.contents out.new)) }
        ensures fits { fits (A.sections answer.now) self.new }
        ensures form { form self.new ≡ form self.old };

    /// Drops all that it keeps to be faster. Whether that may free memory.
    fn drop_caches(&mut self) -> bool
        ensures fits { (s : List (List ℕ)) → fits s self.old → fits s self.new }
        ensures form { form self.new ≡ form self.old }
        ensures took { took self.new ≡ took self.old };
}
