// The reply to a whole request.
ghost use Rattle.reply.specs.Laws.{ReplyLaw, SomeRequest};
ghost use Rattle.reply.specs.Replies.{Answered, RepliesTo};

use crate::answer::Unanswered;
use crate::behind::reply_behind;
use chaintext::read::read_chain;
use lines::reading::Lines;
use pairtext::text::read_pair;
use request::kind::{Kind, kind_of};
use std::alloc::Global;

fn reply_by_kind(heap: Global, text: &[u8]) -> Result<Vec<u8>, Unanswered>
    ensures { Answered (RepliesTo text.now) (SomeRequest text.now) result }
{
    let kind = kind_of(text)?;
    let mut lines = Lines::new(text);
    match kind {
        Kind::Chain => {
            let chain = read_chain(&mut lines)?;
            reply_behind(heap, &chain, &mut lines)
        }
        Kind::Pair => {
            let pair = read_pair(&mut lines)?;
            reply_behind(heap, &pair, &mut lines)
        }
    }
}

// The reply to a request, which is a plant, the tariff and the number of sweeps: the text of its plan. Want of memory is
// answered to requests only: what is no request is refused all the same.
pub fn reply_to(heap: Global, text: &[u8]) -> Result<Vec<u8>, Unanswered>
    ensures reply { Answered (RepliesTo text.now) (SomeRequest text.now) result }
    ensures law { Answered (ReplyLaw text.now) (SomeRequest text.now) result }
{
    reply_by_kind(heap, text)
}
