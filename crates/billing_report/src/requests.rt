//! The lines of requests.
ghost use Rattle.std.specs.Prelude.{◌≡◌, [], ◌∷◌, ◌++◌, map};
ghost use Rattle.line_printer.specs.Puts.{Puts};
ghost use Rattle.split_types.specs.EventText.{kind_word};
ghost use Rattle.split_types.specs.Lines.{numeral, fields, line, lines_of};
ghost use Rattle.split_types.specs.ReportText.{request_words, share_word, state_word};

use line_printer::{Printer, end_line, kind_word, put_digits, put_number, put_word};
use split_types::{Pid, ReqFact, ReqState, Request};

/// The word of a state.
fn state_word(state: ReqState) -> &'static [u8]
    ensures { result.now ≡ state_word state }
{
    match state {
        ReqState::Queued => b"queued",
        ReqState::Done => b"done",
        ReqState::Bad => b"bad",
    }
}

/// Prints a space and a share.
fn put_share<P: Printer>(out: &mut P, share: (Pid, u64))
    ensures { Puts P.due out.old out.new (32 ∷ share_word share) }
{
    put_number(out, u64::from(share.0.0));
    out.put(b":");
    put_digits(out, share.1);
}

/// Prints all shares, each behind a space.
fn put_shares<P: Printer>(out: &mut P, shares: &[(Pid, u64)])
    ensures { Puts P.due out.old out.new (fields (map share_word shares.now)) }
{
    for share in shares {
        put_share(out, *share);
    }
}

/// Prints what a request is, each word behind a space.
fn put_what<P: Printer>(out: &mut P, req: &Request)
    ensures { Puts P.due out.old out.new
        (fields (numeral req.now.id.0 ∷ kind_word req.now.kind ∷ numeral req.now.first ∷ numeral req.now.n ∷ [])) }
{
    put_number(out, u64::from(req.id.0));
    put_word(out, kind_word(req.kind));
    put_number(out, u64::from(req.first));
    put_number(out, u64::from(req.n));
}

/// Prints what came of a request, each word behind a space.
fn put_outcome<P: Printer>(out: &mut P, f: &ReqFact)
    ensures { Puts P.due out.old out.new (fields (state_word f.now.state ∷ numeral f.now.cost ∷ map share_word
        f.now.shares)) }
{
    put_word(out, state_word(f.state));
    put_number(out, f.cost);
    put_shares(out, f.shares.as_slice());
}

/// Prints the line of a request.
fn put_request<P: Printer>(out: &mut P, f: &ReqFact)
    ensures { Puts P.due out.old out.new (line (request_words f.now)) }
{
    out.put(b"req");
    put_what(out, &f.req);
    put_outcome(out, f);
    end_line(out);
}

/// Prints the lines of all requests.
pub(crate) fn put_requests<P: Printer>(out: &mut P, reqs: &[ReqFact])
    ensures { Puts P.due out.old out.new (lines_of request_words reqs.now) }
{
    for req in reqs {
        put_request(out, req);
    }
}
