//! From a result to a reply.

ghost use Rattle.std.specs.Prelude.{◌≡◌};
ghost use Rattle.resp.specs.Replies.{reply_bytes};
ghost use Rattle.kv_resp.specs.Results.{by_word, is_text, odd, reply_to, swapped, with_value};
ghost use Rattle.kv_resp.specs.Results.{without_value};

use crate::demand::Form;
use resp::Reply;

fn is_text(answer: &[u8], text: &str) -> bool
    ensures { result ≡ is_text text.now answer.now }
{
    answer == text.as_bytes()
}

/// What no op of a form has as its result.
fn odd<'a>() -> Reply<'a>
    ensures { reply_bytes result ≡ odd }
{
    Reply::Error("ERR the service answered something else")
}

fn with_value(form: Form, value: &[u8]) -> Reply<'_>
    ensures { reply_bytes result ≡ with_value form value.now }
{
    match form {
        Form::Value => Reply::Bulk(value),
        Form::Stored => Reply::Simple("OK"),
        Form::Presence => Reply::Integer(1),
        Form::Swapped => odd(),
    }
}

fn without_value<'a>(form: Form) -> Reply<'a>
    ensures { reply_bytes result ≡ without_value form }
{
    match form {
        Form::Value => Reply::Nil,
        Form::Stored => Reply::Simple("OK"),
        Form::Presence => Reply::Integer(0),
        Form::Swapped => odd(),
    }
}

fn swapped<'a>(form: Form, n: u64) -> Reply<'a>
    ensures { reply_bytes result ≡ swapped form n }
{
    match form {
        Form::Swapped => Reply::Integer(n),
        _ => odd(),
    }
}

fn by_word<'a>(form: Form, answer: &[u8]) -> Reply<'a>
    ensures { reply_bytes result ≡ by_word form answer.now }
{
    if is_text(answer, "none") {
        without_value(form)
    } else if is_text(answer, "yes") {
        swapped(form, 1)
    } else if is_text(answer, "no") {
        swapped(form, 0)
    } else if is_text(answer, "full") {
        Reply::Error("ERR full: as many keys have a value as may have one")
    } else {
        odd()
    }
}

/// The reply for a result of the service, to a request whose op has this form.
#[tactic(auto, unfolding(crate::specs::Results::reply_to))]
pub fn reply_to(form: Form, answer: &[u8]) -> Reply<'_>
    ensures { reply_bytes result ≡ reply_to form answer.now }
{
    match answer {
        [b'=', value @ ..] => with_value(form, value),
        [] => odd(),
        _ => by_word(form, answer),
    }
}
