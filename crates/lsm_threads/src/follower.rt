//! The loop of a follower, which publishes its versions to readers.

ghost use Rattle.std.specs.Prelude.{◌≡◌, ◌≢◌, ◌<◌, ◌≤◌, All, IfErr, IfOk, OnOk};
ghost use Rattle.lsm_msg.specs.Messages.{IsMessage};
ghost use Rattle.lsm_follow.specs.Onward.{IsOnward};
ghost use mathlib.Core.List.{IsPrefix};
ghost use Rattle.lsm_threads.specs.Endings.{EndsAt, IsOfMail};
ghost use Rattle.lsm_threads.specs.Following.{IsInStep, LeavesFollower, IsShown};
ghost use Rattle.lsm_threads.specs.declared.ending.Ending.TheVariants.{OutOfMemory};

use crate::ending::Ending;
use crate::port::{Port, send_all};
use lsm_follow::{FollowChange, Follower};
use lsm_key::VersionNumber;
use lsm_msg::Message;
use lsm_readers::{LogName, Publisher};
use std::sync::Wait;

/// Publishes a follower's version if readers are not shown it, asks for what comes after it, hands the follower what comes, sends what it
/// answers, publishes each version that it moves to, and asks again, also if it gave a version up. Ends, with both, at the goal or past
/// it, or if it is told that it is current, a channel is closed, what came is no message, or memory runs out. Unless memory ran out,
/// readers are then shown the follower's version; if it did, what was taken last is that or an earlier one, and the next call publishes it.
#[tactic(auto, using(lsm_readers::proofs::Beginnings::prefix_trans))]
pub fn follower_loop<J: LogName, P: Port, R: Wait, W: Wait + Drop>(
    rt: &R,
    mut follower: Follower,
    mut writer: Publisher<J, W>,
    port: &mut P,
    goal: VersionNumber,
) -> (Follower, Publisher<J, W>, Ending)
    requires { IsInStep follower.served writer.taken }
    ensures onward { follower.served.version.number ≤ result.0.served.version.number }
    ensures in_step { IsInStep result.0.served result.1.taken }
    ensures taken { IsPrefix writer.taken result.1.taken }
    ensures shown { result.2 ≢ OutOfMemory → IsShown result.0.served result.1 }
    ensures ends { EndsAt goal result.0.served.version.number result.2 }
{
    if let Err(ending) = begin(&follower, &mut writer, port, goal) {
        return (follower, writer, ending);
    }
    for _ in rt.forever() {
        if let Err(ending) = turn(&mut follower, &mut writer, port, goal) {
            return (follower, writer, ending);
        }
    }
    unreachable!()
}

// Publishes the follower's version if readers are not shown it, and asks for what comes after it, unless the loop ends.
#[tactic(auto, using(crate::proofs::Ended::left_by_mail))]
fn begin<J: LogName, P: Port, W: Wait + Drop>(
    follower: &Follower,
    writer: &mut Publisher<J, W>,
    port: &mut P,
    goal: VersionNumber,
) -> Result<(), Ending>
    requires { IsInStep follower.now.served writer.old.taken }
    ensures in_step { IsInStep follower.now.served writer.new.taken }
    ensures taken { IsPrefix writer.old.taken writer.new.taken }
    ensures ok { OnOk result (IsShown follower.now.served writer.new × (follower.now.served.version.number < goal)) }
    ensures err { IfErr result (LeavesFollower goal follower.now.served writer.new) }
{
    show(follower, writer, goal)?;
    port.send(&follower.ask())
}

// Waits for a message, hands it to the follower, publishes the version that it moves to, and sends what it answers and asks, unless the
// loop ends.
#[tactic(auto, using(crate::proofs::InStep::in_step_onward, crate::proofs::Ended::left_by_mail, lsm_readers::proofs::Beginnings::prefix_self))]
fn turn<J: LogName, P: Port, W: Wait + Drop>(
    follower: &mut Follower,
    writer: &mut Publisher<J, W>,
    port: &mut P,
    goal: VersionNumber,
) -> Result<(), Ending>
    requires shown { IsShown follower.old.served writer.old }
    requires behind { follower.old.served.version.number < goal }
    ensures onward { follower.old.served.version.number ≤ follower.new.served.version.number }
    ensures in_step { IsInStep follower.new.served writer.new.taken }
    ensures taken { IsPrefix writer.old.taken writer.new.taken }
    ensures ok { OnOk result (IsShown follower.new.served writer.new × (follower.new.served.version.number < goal)) }
    ensures err { IfErr result (LeavesFollower goal follower.new.served writer.new) }
{
    let (change, sent) = hand_over(follower, port)?;
    show(follower, writer, goal)?;
    send_all(port, sent.as_slice())?;
    match change {
        FollowChange::Version(_) | FollowChange::Dropped => port.send(&follower.ask()),
        FollowChange::Waiting(_) | FollowChange::Ignored => Ok(()),
        FollowChange::Current => Err(Ending::Current),
    }
}

// What comes of the next message, unless the channel is closed, what came is no message, or memory runs out, which changes nothing.
fn hand_over<P: Port>(
    follower: &mut Follower,
    port: &mut P,
) -> Result<(FollowChange, Vec<Message>), Ending>
    ensures onward { IsOnward follower.old.served follower.new.served }
    ensures sound { IfOk result (λ r. All IsMessage r.1.items) }
    ensures err { IfErr result (λ e. IsOfMail e × (follower.new.served ≡ follower.old.served)) }
{
    let message = port.receive()?;
    let made = follower.on_message(&message);
    drop(message);
    match made {
        Ok(made) => Ok(made),
        Err(_) => Err(Ending::OutOfMemory),
    }
}

// Publishes the follower's version if readers are not shown it. Refuses if memory runs out, and at the goal.
#[tactic(auto, using(crate::proofs::InStep::in_step_caught_up))]
fn show<J: LogName, W: Wait + Drop>(
    follower: &Follower,
    writer: &mut Publisher<J, W>,
    goal: VersionNumber,
) -> Result<(), Ending>
    requires { IsInStep follower.now.served writer.old.taken }
    ensures in_step { IsInStep follower.now.served writer.new.taken }
    ensures taken { IsPrefix writer.old.taken writer.new.taken }
    ensures ok { OnOk result (IsShown follower.now.served writer.new × (follower.now.served.version.number < goal)) }
    ensures err { IfErr result (LeavesFollower goal follower.now.served writer.new) }
{
    if writer.catch_up(follower.served()).is_err() {
        return Err(Ending::OutOfMemory);
    }
    if follower.show().number.number() >= goal.number() {
        return Err(Ending::AtGoal);
    }
    Ok(())
}
