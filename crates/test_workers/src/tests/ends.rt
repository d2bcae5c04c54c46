ghost use Rattle.std.specs.Prelude.{◌≡◌};

use super::{KILL, same};
use std::process::Abort;
use std::sync::Wait;
use std::test::Fail;
use tr_hub::{Answer, Asked, Hub, Parts, Seat, Unclosed};
use tr_kernel::Kernel;
use tr_model::{Event, Reply};

const PROBE: Event = Event::Kill { tgid: 10, sig: 0 };

/// What was asked after one entry.
const ASKED: Asked = Asked {
    actor: 10,
    event: PROBE,
    position: 1,
    answer: Answer::Read(Reply::Exists),
};

/// Makes an entry, and asks what makes none.
fn call_twice<E: Parts, A: Parts>(
    rt: &(impl Wait + Abort),
    hub: &Hub<E, A>,
    seat: &mut Seat<E, A>,
) {
    same(rt, &hub.call(rt, seat, KILL).is_entered(), &true);
    same(rt, &hub.call(rt, seat, PROBE), &ASKED.answer);
    same(rt, &seat.calls(), &2);
}

/// What a hub is handed back with where a seat is missing.
fn unclosed<E: Parts, A: Parts>(
    hub: Hub<E, A>,
    seats: Vec<Seat<E, A>>,
) -> Result<Unclosed<E, A>, Fail>
    requires { (E.all ≡ E.parts) × (A.all ≡ A.parts) }
{
    match hub.close(seats) {
        Ok(_) => Err(Fail::from("closed without a seat")),
        Err(unclosed) => Ok(unclosed),
    }
}

/// That the kernel has the one entry.
fn has_entered(rt: &impl Abort, kernel: &Kernel) {
    let entry = kernel.journal().first();
    same(
        rt,
        &entry.map(|entry| (entry.actor(), entry.event())),
        &Some((10, KILL)),
    );
    same(rt, &kernel.journal().len(), &1);
}

/// Without one of its seats a hub stays open, with what it has kept; with all of them it gives its kernel.
pub(super) fn close<E: Parts, A: Parts>(
    rt: &(impl Wait + Abort),
    hub: Hub<E, A>,
    mut seats: Vec<Seat<E, A>>,
) -> Result<(), Fail>
    requires { (E.all ≡ E.parts) × (A.all ≡ A.parts) }
{
    let Some(mut last) = seats.pop() else {
        return Err(Fail::from("a seat"));
    };
    call_twice(rt, &hub, &mut last);
    let Unclosed { hub, mut seats } = unclosed(hub, seats)?;
    seats.push(last)?;
    let Ok((kernel, asked)) = hub.close(seats) else {
        return Err(Fail::from("not closed"));
    };
    has_entered(rt, &kernel);
    same(rt, &asked.first(), &Some(&ASKED));
    same(rt, &asked.len(), &1);
    Ok(())
}
