ghost use Rattle.std.specs.Prelude.{◌≡◌, ◌+◌, length, IfOk};

use billing_report::{put_report, report};
use line_printer::Sheet;
use split_types::{
    AccountFact, Facts, List, Pid, ReqFact, ReqId, ReqKind, ReqState, Request, Sched, Serial,
};
use std::alloc::{AllocError, Global};

/// Pages that were written for three processes, and a read that has no `done` yet.
fn requests(alloc: Global) -> Result<List<ReqFact>, AllocError> {
    let pages = ReqFact {
        req: Request {
            id: ReqId(0),
            kind: ReqKind::Pages(Serial(0), 0),
            first: 526,
            n: 1,
        },
        state: ReqState::Done,
        cost: 52,
        shares: List::from_vec(vec![in alloc; (Pid(1), 18), (Pid(2), 17), (Pid(3), 17)]?),
    };
    let read = ReqFact {
        req: Request {
            id: ReqId(1),
            kind: ReqKind::Read(Pid(2), Serial(0), 1),
            first: 527,
            n: 1,
        },
        state: ReqState::Queued,
        cost: 0,
        shares: List::from_vec(vec![in alloc; (Pid(2), 0)]?),
    };
    let mut reqs = List::new(alloc);
    reqs.push(pages)?;
    reqs.push(read)?;
    Ok(reqs)
}

fn facts(alloc: Global) -> Result<Facts, AllocError>
    ensures { IfOk result (λ f. length f.made ≡ length f.billed + 5) }
{
    let account = AccountFact {
        granted: 60,
        billed: 52,
        pending: -2,
        balance: 10,
    };
    Ok(Facts {
        reqs: requests(alloc)?,
        billed: List::from_vec(vec![in alloc; 18, 17, 17]?),
        accounts: List::from_vec(vec![in alloc; account]?),
        made: List::from_vec(vec![in alloc; 4, 4, 4, 2, 1, 1, 1, 0]?),
        clock: 52,
    })
}

const REQUESTS: &str = "report 1
requests 2
req 0 pages 526 1 done 52 1:18 2:17 3:17
req 1 read 527 1 queued 0 2:0
proc 1 billed 18
proc 2 billed 17
proc 3 billed 17
";

const MADE: &str = "made c1 4
made c2 4
made c3 4
made wb 2
made cm 1
made dq 1
made dn 1
made tk 0
clock 52
end
";

const ACCOUNTS: &str = "account 1 granted 60 billed 52 pending -2 balance 10
";

#[test]
fn prints_two_requests(rt: HostRuntime) {
    let alloc = rt.alloc();
    let facts = facts(alloc).expect(&rt, "memory");
    let text = report(alloc, &facts, Sched::Afq).expect(&rt, "memory");
    let wanted = format!(in alloc; "{REQUESTS}{MADE}").expect(&rt, "memory");
    assert!(rt; text.as_slice() == wanted.as_bytes());
    let mut sheet = Sheet::new(alloc);
    put_report(&mut sheet, &facts, Sched::Token);
    let text = sheet.finish().expect(&rt, "memory");
    let wanted = format!(in alloc; "{REQUESTS}{ACCOUNTS}{MADE}").expect(&rt, "memory");
    assert!(rt; text.as_slice() == wanted.as_bytes());
}
