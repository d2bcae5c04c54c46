use super::runs::is_text;
use super::*;

/// A thread exits, and its starter waits for it.
pub const EXITS: &str =
    r#"{"version":2,"limit":4,"entries":1000,"groups":[{"tgid":10,"name":"demo","threads":[{"tid":10,"blocked":[]}],"actions":[]}],"workers":[{"actor":10,"machine":[{"tid":10,"ops":[{"do":"exit","tid":10,"code":3}]}]},{"actor":1,"items":[{"do":"starter_wait","tgid":0,"untraced":false,"continued":false,"until":true}]}]}"#;

const EXITS_TEXT: &str = "\
! 10 die NotDue\n\
. 1 starter_wait nothing\n\
! 10 halt NotDue\n\
. 1 starter_wait nothing\n\
! 10 trap NotDue\n\
. 1 starter_wait nothing\n\
! 10 finish NotDue\n\
. 1 starter_wait nothing\n\
. 10 take nothing\n\
. 1 starter_wait nothing\n\
#1 10 exit ok\n\
. 1 starter_wait nothing\n\
#2 10 die ok\n\
#3 1 starter_wait waited 10 300 1\n\
! 10 die ESRCH 3\n\
worker 10 entries 2 accepted 0 refused 5 end\n\
worker 1 entries 1 accepted 0 refused 0 end\n\
\n\
totals accepted 0 pending 0 merged 0 delivered 0 suppressed 0 flushed 0\n";

#[test]
fn exits_and_is_waited_for(rt: HostRuntime) {
    is_text(&rt, EXITS, EXITS_TEXT);
}

/// The workers aren't in the order of their actors.
const ORDER: &str =
    r#"{"version":2,"limit":4,"entries":1000,"groups":[{"tgid":10,"name":"demo","threads":[{"tid":10,"blocked":[]}],"actions":[{"sig":10,"how":"catch"}]}],"workers":[{"actor":902,"items":[{"do":"kill","tgid":10,"sig":0,"times":2},{"do":"kill","tgid":10,"sig":10}]},{"actor":901,"items":[]},{"actor":10,"items":[{"do":"take","tid":10,"until":true},{"do":"die","tid":11,"until":true}]}]}"#;

const ORDER_TEXT: &str = "\
. 902 kill exists\n\
. 10 take nothing\n\
. 902 kill exists\n\
. 10 take nothing\n\
#1 902 kill sent 1 pending\n\
#2 10 take took 10 1 10 0 caught\n\
! 10 die ESRCH 3\n\
worker 902 entries 1 accepted 1 refused 0 end\n\
worker 901 entries 0 accepted 0 refused 0 end\n\
worker 10 entries 1 accepted 0 refused 1 end\n\
\n\
Name:\tdemo\n\
State:\tR (running)\n\
Tgid:\t10\n\
Pid:\t10\n\
PPid:\t1\n\
TracerPid:\t0\n\
Threads:\t1\n\
SigQ:\t0/4\n\
SigPnd:\t0000000000000000\n\
ShdPnd:\t0000000000000000\n\
SigBlk:\t0000000000000000\n\
SigIgn:\t0000000000000000\n\
SigCgt:\t0000000000000200\n\
\n\
totals accepted 1 pending 0 merged 0 delivered 1 suppressed 0 flushed 0\n";

#[test]
fn goes_in_the_order_of_the_file(rt: HostRuntime) {
    is_text(&rt, ORDER, ORDER_TEXT);
}

/// A thread clones another one.
const CLONE: &str =
    r#"{"version":2,"limit":4,"entries":1000,"groups":[{"tgid":10,"name":"demo","threads":[{"tid":10,"blocked":[]}],"actions":[]}],"workers":[{"actor":10,"machine":[{"tid":10,"ops":[{"do":"clone","tid":10},{"do":"exit","tid":10,"code":0}]},{"tid":11,"ops":[{"do":"exit","tid":11,"code":3}]}]},{"actor":1,"items":[{"do":"starter_wait","tgid":0,"untraced":false,"continued":false,"until":true}]}]}"#;

const CLONE_TEXT: &str = "\
! 10 die NotDue\n\
. 1 starter_wait nothing\n\
! 10 halt NotDue\n\
. 1 starter_wait nothing\n\
! 10 trap NotDue\n\
. 1 starter_wait nothing\n\
! 10 finish NotDue\n\
. 1 starter_wait nothing\n\
. 10 take nothing\n\
. 1 starter_wait nothing\n\
#1 10 clone cloned 11\n\
. 1 starter_wait nothing\n\
! 10 die NotDue\n\
. 1 starter_wait nothing\n\
! 10 halt NotDue\n\
. 1 starter_wait nothing\n\
! 10 trap NotDue\n\
. 1 starter_wait nothing\n\
! 10 finish NotDue\n\
. 1 starter_wait nothing\n\
. 10 take nothing\n\
. 1 starter_wait nothing\n\
#2 10 exit ok\n\
. 1 starter_wait nothing\n\
! 10 die NotDue\n\
. 1 starter_wait nothing\n\
! 10 halt NotDue\n\
. 1 starter_wait nothing\n\
! 10 trap NotDue\n\
. 1 starter_wait nothing\n\
! 10 finish NotDue\n\
. 1 starter_wait nothing\n\
. 10 take nothing\n\
. 1 starter_wait nothing\n\
#3 10 exit ok\n\
. 1 starter_wait nothing\n\
#4 10 die ok\n\
. 1 starter_wait nothing\n\
#5 10 die ok\n\
#6 1 starter_wait waited 10 0 1\n\
! 10 die ESRCH 3\n\
! 10 die ESRCH 3\n\
! 10 die ESRCH 3\n\
worker 10 entries 5 accepted 0 refused 15 end\n\
worker 1 entries 1 accepted 0 refused 0 end\n\
\n\
totals accepted 0 pending 0 merged 0 delivered 0 suppressed 0 flushed 0\n";

#[test]
fn clones(rt: HostRuntime) {
    is_text(&rt, CLONE, CLONE_TEXT);
}

/// Another thread than the leader executes a program, and gets the leader's id.
const EXEC: &str =
    r#"{"version":2,"limit":4,"entries":1000,"groups":[{"tgid":10,"name":"demo","threads":[{"tid":10,"blocked":[]},{"tid":11,"blocked":[]}],"actions":[]}],"workers":[{"actor":11,"machine":[{"tid":11,"ops":[{"do":"exec","tid":11}]},{"tid":10,"ops":[{"do":"exit_group","tid":10,"code":2}]}]},{"actor":1,"items":[{"do":"starter_wait","tgid":0,"untraced":false,"continued":false,"until":true}]}]}"#;

const EXEC_TEXT: &str = "\
! 11 die NotDue\n\
. 1 starter_wait nothing\n\
! 11 halt NotDue\n\
. 1 starter_wait nothing\n\
! 11 trap NotDue\n\
. 1 starter_wait nothing\n\
! 11 finish NotDue\n\
. 1 starter_wait nothing\n\
. 11 take nothing\n\
. 1 starter_wait nothing\n\
#1 11 exec ok\n\
. 1 starter_wait nothing\n\
#2 11 die ok\n\
. 1 starter_wait nothing\n\
! 11 die NotDue\n\
. 1 starter_wait nothing\n\
! 11 halt NotDue\n\
. 1 starter_wait nothing\n\
! 11 trap NotDue\n\
. 1 starter_wait nothing\n\
#3 11 finish ok\n\
. 1 starter_wait nothing\n\
! 11 die NotDue\n\
. 1 starter_wait nothing\n\
! 11 halt NotDue\n\
. 1 starter_wait nothing\n\
! 11 trap NotDue\n\
. 1 starter_wait nothing\n\
! 11 finish NotDue\n\
. 1 starter_wait nothing\n\
. 11 take nothing\n\
. 1 starter_wait nothing\n\
#4 11 exit_group ok\n\
. 1 starter_wait nothing\n\
! 11 die ESRCH 3\n\
. 1 starter_wait nothing\n\
#5 11 die ok\n\
#6 1 starter_wait waited 10 200 1\n\
! 11 die ESRCH 3\n\
! 11 die ESRCH 3\n\
worker 11 entries 5 accepted 0 refused 14 end\n\
worker 1 entries 1 accepted 0 refused 0 end\n\
\n\
totals accepted 0 pending 0 merged 0 delivered 0 suppressed 0 flushed 0\n";

#[test]
fn executes_by_another_thread(rt: HostRuntime) {
    is_text(&rt, EXEC, EXEC_TEXT);
}

/// The group exits by its second thread.
const EXIT_GROUP: &str =
    r#"{"version":2,"limit":4,"entries":1000,"groups":[{"tgid":10,"name":"demo","threads":[{"tid":10,"blocked":[]},{"tid":11,"blocked":[]}],"actions":[]}],"workers":[{"actor":10,"machine":[{"tid":10,"ops":[]},{"tid":11,"ops":[{"do":"exit_group","tid":11,"code":7}]}]},{"actor":1,"items":[{"do":"starter_wait","tgid":0,"untraced":false,"continued":false,"until":true}]}]}"#;

const EXIT_GROUP_TEXT: &str = "\
! 10 die NotDue\n\
. 1 starter_wait nothing\n\
! 10 halt NotDue\n\
. 1 starter_wait nothing\n\
! 10 trap NotDue\n\
. 1 starter_wait nothing\n\
! 10 finish NotDue\n\
. 1 starter_wait nothing\n\
. 10 take nothing\n\
. 1 starter_wait nothing\n\
! 10 die NotDue\n\
. 1 starter_wait nothing\n\
! 10 halt NotDue\n\
. 1 starter_wait nothing\n\
! 10 trap NotDue\n\
. 1 starter_wait nothing\n\
! 10 finish NotDue\n\
. 1 starter_wait nothing\n\
. 10 take nothing\n\
. 1 starter_wait nothing\n\
#1 10 exit_group ok\n\
. 1 starter_wait nothing\n\
#2 10 die ok\n\
. 1 starter_wait nothing\n\
#3 10 die ok\n\
#4 1 starter_wait waited 10 700 1\n\
! 10 die ESRCH 3\n\
! 10 die ESRCH 3\n\
worker 10 entries 3 accepted 0 refused 10 end\n\
worker 1 entries 1 accepted 0 refused 0 end\n\
\n\
totals accepted 0 pending 0 merged 0 delivered 0 suppressed 0 flushed 0\n";

#[test]
fn exits_as_a_group(rt: HostRuntime) {
    is_text(&rt, EXIT_GROUP, EXIT_GROUP_TEXT);
}

/// A thread waits for a signal, and is killed.
const KILLED: &str =
    r#"{"version":2,"limit":4,"entries":1000,"groups":[{"tgid":10,"name":"demo","threads":[{"tid":10,"blocked":[]}],"actions":[]}],"workers":[{"actor":10,"machine":[{"tid":10,"ops":[{"do":"pause","tid":10},{"do":"exit","tid":10,"code":0}]}]},{"actor":900,"items":[{"do":"kill","tgid":10,"sig":0,"times":8},{"do":"kill","tgid":10,"sig":9}]},{"actor":1,"items":[{"do":"starter_wait","tgid":0,"untraced":false,"continued":false,"until":true}]}]}"#;

const KILLED_TEXT: &str = "\
! 10 die NotDue\n\
. 900 kill exists\n\
. 1 starter_wait nothing\n\
! 10 halt NotDue\n\
. 900 kill exists\n\
. 1 starter_wait nothing\n\
! 10 trap NotDue\n\
. 900 kill exists\n\
. 1 starter_wait nothing\n\
! 10 finish NotDue\n\
. 900 kill exists\n\
. 1 starter_wait nothing\n\
. 10 take nothing\n\
. 900 kill exists\n\
. 1 starter_wait nothing\n\
#1 10 pause ok\n\
. 900 kill exists\n\
. 1 starter_wait nothing\n\
! 10 die NotDue\n\
. 900 kill exists\n\
. 1 starter_wait nothing\n\
! 10 halt NotDue\n\
. 900 kill exists\n\
. 1 starter_wait nothing\n\
! 10 trap NotDue\n\
#2 900 kill sent 1 delivered\n\
. 1 starter_wait nothing\n\
! 10 finish NotDue\n\
. 1 starter_wait nothing\n\
! 10 take NotRunning\n\
. 1 starter_wait nothing\n\
! 10 exit NotRunning\n\
. 1 starter_wait nothing\n\
#3 10 die ok\n\
#4 1 starter_wait waited 10 9 1\n\
! 10 die ESRCH 3\n\
worker 10 entries 2 accepted 0 refused 11 end\n\
worker 900 entries 1 accepted 1 refused 0 end\n\
worker 1 entries 1 accepted 0 refused 0 end\n\
\n\
totals accepted 1 pending 0 merged 0 delivered 1 suppressed 0 flushed 0\n";

#[test]
fn is_killed_while_it_waits(rt: HostRuntime) {
    is_text(&rt, KILLED, KILLED_TEXT);
}
