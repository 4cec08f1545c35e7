//! A run: its threads, and what becomes of the books when the threads have ended.

ghost use Rattle.std.specs.Prelude.{◌≡◌, Some, IfOk, IfErr, IfSome, IsErrOf};
ghost use Rattle.host_checks.specs.declared.outcome.RunFault.{RunFault as Refusal};
ghost use Rattle.host_checks.specs.Outcomes.{HasMigrated, IsRunFault};
ghost use Rattle.host_threads.specs.Runs.{told_as, told_of, IsRunOf};

use crate::books::{books_of, left_by};
use crate::carry::Echo;
use crate::gate::{Gate, most_at_once};
use crate::link::run_link;
use crate::loopback::open_loopback;
use crate::pager::run_pager;
use crate::passage::{NoRelay, Passage};
use crate::relay::Relay;
use crate::shared::SharedBooks;
use crate::source::run_source;
use crate::stop_reason::StopReason;
use crate::vcpu::run_vcpu;
use guest_script::{Script, Transcript};
use host_checks::{Migrated, RunFault, session_of, settle};
use migration_types::{Logs, Seq};
use page_store::Store;
use std::alloc::Global;
use std::net::{Net, TcpListener, TcpStream};
use std::sync::Wait;
use std::thread;
use std::thread::{JoinHandle, Scope, Threads};

/// Starts a thread for each virtual processor. If one cannot be started, the run stops.
fn start_vcpus<'s, E, R: Threads + Wait + Sync, G: Gate>(
    rt: &'s R,
    alloc: Global,
    scope: &Scope<'s, E>,
    shared: &'s SharedBooks,
    script: &'s Script,
    gate: &'s G,
) -> Vec<JoinHandle<Transcript>> {
    let mut threads = Vec::new(alloc);
    for (number, vcpu) in script.vcpus().iter().enumerate() {
        let number = u8::try_from(number).unwrap_or(u8::MAX);
        if threads.reserve(1).is_err() {
            shared.bell.stop(rt, StopReason::Memory);
            break;
        }
        match scope.spawn(move || run_vcpu(rt, alloc, shared, gate, number, vcpu)) {
            Ok(thread) => threads.push_reserved(thread),
            Err(_) => shared.bell.stop(rt, StopReason::Threads),
        }
    }
    threads
}

/// Joins the threads of the virtual processors, and appends what they did to the transcripts. If memory runs out, the
/// run stops.
fn join_vcpus<R: Threads + Wait>(
    rt: &R,
    shared: &SharedBooks,
    threads: Vec<JoinHandle<Transcript>>,
    transcripts: &mut Vec<Transcript>,
) {
    for thread in threads {
        let transcript = thread.join(rt);
        if transcripts.push(transcript).is_err() {
            shared.bell.stop(rt, StopReason::Memory);
        }
    }
}

/// Joins the thread of the source, the link or the pager, if it was started.
fn join_party<R: Threads + Wait>(rt: &R, thread: Option<JoinHandle<()>>) {
    if let Some(thread) = thread {
        thread.join(rt);
    }
}

/// Starts a thread for each virtual processor and one each for the source, the link and the pager, and joins them all.
/// Appends what the virtual processors did to the transcripts. If a thread cannot be started, the run stops.
fn run_threads<R: Threads + Wait + Sync, G: Gate, L: Relay + Drop>(
    rt: &R,
    alloc: Global,
    shared: &SharedBooks,
    script: &Script,
    gate: &G,
    passage: Passage<L>,
    transcripts: &mut Vec<Transcript>,
) {
    thread::scope(thread::scope_env(), rt, |scope| {
        let threads = start_vcpus(rt, alloc, scope, shared, script, gate);
        let source = scope
            .spawn(move || run_source(rt, shared, gate, script))
            .ok();
        let most = most_at_once(gate);
        let link = scope
            .spawn(move || run_link(rt, shared, script, passage, most))
            .ok();
        let pager = scope.spawn(move || run_pager(rt, shared, gate)).ok();
        if source.is_none() || link.is_none() || pager.is_none() {
            shared.bell.stop(rt, StopReason::Threads);
        }
        join_vcpus(rt, shared, threads, transcripts);
        join_party(rt, source);
        join_party(rt, link);
        join_party(rt, pager);
    });
}

/// Returns why a run that stopped for this reason is refused, before anything is checked.
fn refusal(fault: StopReason) -> Option<RunFault>
    ensures { result ≡ told_as fault }
{
    match fault {
        StopReason::LogFull => Some(RunFault::LogFull),
        StopReason::Memory => Some(RunFault::Memory),
        StopReason::Threads => Some(RunFault::Threads),
        StopReason::Link => Some(RunFault::Link),
        StopReason::Astray => None,
    }
}

/// Returns the result of the checks of what a run left.
fn settled<R: Threads + Sync>(
    rt: &R,
    alloc: Global,
    script: &Script,
    logs: Logs,
    store: Store,
    transcripts: Seq<Transcript>,
) -> Result<Migrated, RunFault>
    ensures migrated { IfOk result (HasMigrated script.now) }
    ensures left { IfOk result (IsRunOf script.now logs store transcripts) }
    ensures refused { IfErr result (IsRunFault script.now) }
{
    let session = session_of(alloc, script, logs)?;
    settle(rt, alloc, script, session, store, transcripts)
}

/// Returns the result of a run that stopped for this reason, if it did, and left this.
fn outcome<R: Threads + Sync>(
    rt: &R,
    alloc: Global,
    script: &Script,
    fault: Option<StopReason>,
    left: Option<(Logs, Store)>,
    transcripts: Seq<Transcript>,
) -> Result<Migrated, RunFault>
    ensures migrated { IfOk result (HasMigrated script.now) }
    ensures refused { IfErr result (IsRunFault script.now) }
    ensures fault { (f : Refusal) → told_of fault ≡ Some f → IsErrOf result f }
    ensures left { IfOk result (λ m. IfSome left (λ l. IsRunOf script.now l.0 l.1 transcripts m)) }
{
    match (fault.and_then(refusal), left) {
        (Some(fault), _) => Err(fault),
        (None, Some((logs, store))) => settled(rt, alloc, script, logs, store, transcripts),
        (None, None) => Err(RunFault::TranscriptDiffers),
    }
}

/// Returns the result of the checks of what the threads left.
fn checked<R: Threads + Sync>(
    rt: &R,
    alloc: Global,
    script: &Script,
    shared: SharedBooks,
    transcripts: Vec<Transcript>,
) -> Result<Migrated, RunFault>
    ensures migrated { IfOk result (HasMigrated script.now) }
    ensures refused { IfErr result (IsRunFault script.now) }
{
    let (fault, left) = left_by(shared);
    outcome(rt, alloc, script, fault, left, Seq::from_vec(transcripts))
}

/// Runs a script over this passage, and returns the result of the checks of what it left.
fn run<R: Threads + Wait + Sync, G: Gate, L: Relay + Drop>(
    rt: &R,
    alloc: Global,
    script: &Script,
    gate: &G,
    passage: Passage<L>,
) -> Result<Migrated, RunFault>
    ensures migrated { IfOk result (HasMigrated script.now) }
    ensures refused { IfErr result (IsRunFault script.now) }
{
    let Ok(mut transcripts) = Vec::with_capacity(alloc, script.vcpus().len()) else {
        return Err(RunFault::Memory);
    };
    let Ok(shared) = books_of(alloc, script) else {
        return Err(RunFault::Memory);
    };
    run_threads(rt, alloc, &shared, script, gate, passage, &mut transcripts);
    checked(rt, alloc, script, shared, transcripts)
}

/// Runs a script's migration in threads: one for each virtual processor and one each for the source, the link and the
/// pager. The books are under four locks, which are taken in the order source, link, pager, target. Then it checks what
/// the run left. The link is in memory. If the script has a lane, it turns in the link's thread and under its lock.
///
/// `Ok` means that all checks were made and passed. The session has the script's version, machine and initial pages.
/// The checker says `Yes` to it with the certificate, so every merging of its logs is safe. Each transcript has the
/// script's operations of its virtual processor in order, each once, and is that virtual processor's part of the
/// guest's log. The source was told that every owed page is placed. Each owed page is resident at the end of the
/// certificate's merging. Each page of the frames is that of one machine that never moved.
///
/// # Errors
///
/// `LogFull` if a thread found no room in a log, or else `Memory` if memory ran out for a thread, or else `Threads` if
/// a thread could not be started. Nothing is checked then. Otherwise, `AuditRefused` with a report that does not say
/// that the session is clean, or else `TranscriptDiffers` if another check fails, or `Memory` if memory runs out for
/// the checks.
///
/// Nothing is promised about when a thread goes on, nor that the run ends.
pub fn migrate<R: Threads + Wait + Sync, G: Gate>(
    rt: &R,
    alloc: Global,
    script: &Script,
    gate: &G,
) -> Result<Migrated, RunFault>
    ensures migrated { IfOk result (HasMigrated script.now) }
    ensures refused { IfErr result (IsRunFault script.now) }
{
    run(rt, alloc, script, gate, Passage::<NoRelay>::InMemory)
}

/// Runs a migration as [`migrate`] does, over one relay for the packets of the link in both directions and of the lane.
/// Under the link's lock, before a packet is delivered, its bytes are written to the relay, at most 4,096 at a time,
/// and read back before the next are written. What came back, read as one stream, must be that packet. A packet that is
/// lost or sent to the back passes at a later turn, or never.
///
/// # Errors
///
/// As for `migrate`; and `Link` if a call of the relay fails, or returns 0 or more than it was asked for, or if another
/// packet comes back, or none, or several. Nothing is checked then. If threads met several of `LogFull`, `Memory`,
/// `Threads` and `Link`, the error is the first of these.
pub fn migrate_over<R: Threads + Wait + Sync, G: Gate, L: Relay + Drop>(
    rt: &R,
    alloc: Global,
    script: &Script,
    gate: &G,
    relay: L,
) -> Result<Migrated, RunFault>
    ensures migrated { IfOk result (HasMigrated script.now) }
    ensures refused { IfErr result (IsRunFault script.now) }
{
    let echo = Echo::new(alloc, script.geometry());
    run(rt, alloc, script, gate, Passage::Over(relay, echo))
}

/// Runs a migration as [`migrate_over`] does, over the two ends of a connection over the loopback address. The error is
/// `Link` also if there is no such connection, or if the bytes do not come within 10 seconds.
pub fn migrate_tcp<
    R: Threads + Wait + Sync + Net<Listener = TcpListener, Stream = TcpStream>,
    G: Gate,
>(rt: &R, alloc: Global, script: &Script, gate: &G) -> Result<Migrated, RunFault>
    ensures migrated { IfOk result (HasMigrated script.now) }
    ensures refused { IfErr result (IsRunFault script.now) }
{
    match open_loopback(rt) {
        Ok(ends) => migrate_over(rt, alloc, script, gate, ends),
        Err(_) => Err(RunFault::Link),
    }
}
