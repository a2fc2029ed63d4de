// A scalar as a token.
ghost use Rattle.std.specs.Prelude.{◌≡◌, ◌-◌, ◌≤◌, length};
ghost use Rattle.tape.specs.Token.{scalar_of};
ghost use Rattle.cut.specs.Scalars.{scalar_cut};
ghost use Rattle.parse.specs.Scalars.{scalar_found};
ghost use Rattle.parse.specs.Parse.{text_limit};

use crate::span::Span;
use crate::text::Text;
use cut::Cut;
use tape::token;
use tape::token::ScalarKind;

// The token of a scalar of a kind, with a view of its run.
pub(crate) fn viewed(kind: ScalarKind, run: Span) -> token::Token
    ensures { result ≡ scalar_of kind run.start (run.end - run.start) }
{
    token::scalar(kind, run.start as u32, (run.end - run.start) as u32)
}

// A scalar that stands at a place: its token, and the place after it.
#[derive(Clone, Copy)]
pub struct Scalar {
    pub token: token::Token,
    pub rest: usize,
}

// The scalar at a place; none where the text ends in it.
#[tactic(auto, using(crate::proofs::Bounds::unquoted_within, crate::proofs::Bounds::quoted_within))]
pub(crate) fn scalar_at(text: Text, at: usize) -> Option<Scalar>
    ensures { result ≡ scalar_found (scalar_cut text.entry.bytes.now at) }
{
    match cut::scalar_at(text.bytes, at) {
        Some(Cut::Unquoted { start, end, rest }) => Some(Scalar {
            token: viewed(ScalarKind::Unquoted, Span { start, end }),
            rest,
        }),
        Some(
            Cut::Quoted {
                start,
                end,
                rest,
                escaped,
            },
        ) => Some(Scalar {
            token: viewed(token::quoted_kind(escaped), Span { start, end }),
            rest,
        }),
        None => None,
    }
}
