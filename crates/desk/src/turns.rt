// What a command leaves: its reply, and the bench.
ghost use Rattle.std.specs.Prelude.{◌≡◌};
ghost use Rattle.desk.specs.Desk.{replied, done};
ghost use Rattle.desk.specs.declared.Reply.TheVariants.{BadLine, Answered, Shown};
ghost use Rattle.desk.specs.Commands.{with_state, with_claims};

use crate::{Bench, Look, Reply, Turn};
use rules::{Claims, Refusal, State};

pub fn bad_line(b: Bench) -> Turn
    ensures { result ≡ replied BadLine b }
{
    Turn {
        reply: Reply::BadLine,
        bench: b,
    }
}

pub fn shown(look: Look, b: Bench) -> Turn
    ensures { result ≡ replied (Shown look) b }
{
    Turn {
        reply: Reply::Shown(look),
        bench: b,
    }
}

pub fn answered(answer: Result<(), Refusal>, b: Bench) -> Turn
    ensures { result ≡ replied (Answered answer) b }
{
    Turn {
        reply: Reply::Answered(answer),
        bench: b,
    }
}

pub fn done(b: Bench) -> Turn
    ensures { result ≡ done b }
{
    answered(Ok(()), b)
}

pub fn with_state(b: Bench, state: State) -> Bench
    ensures { result ≡ with_state b state }
{
    let mut next = b;
    next.state = state;
    next
}

pub fn with_claims(b: Bench, claims: Claims) -> Bench
    ensures { result ≡ with_claims b claims }
{
    let mut next = b;
    next.claims = claims;
    next
}
