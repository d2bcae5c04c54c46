//! Sends, masks and actions.

use super::Run;

pub const RUNS: [Run; 10] = [
    Run {
        shows: "nothing is done",
        input: r#"{"version":1,"limit":4,"entries":1000,"groups":[
{"tgid":10,"name":"demo","threads":[{"tid":10,"blocked":[]}],"actions":[]}],"steps":[]}"#,
        output: "\n\
Name:\tdemo\n\
State:\tR (running)\n\
Tgid:\t10\n\
Pid:\t10\n\
PPid:\t1\n\
TracerPid:\t0\n\
Threads:\t1\n\
SigQ:\t0/4\n\
SigPnd:\t0000000000000000\n\
ShdPnd:\t0000000000000000\n\
SigBlk:\t0000000000000000\n\
SigIgn:\t0000000000000000\n\
SigCgt:\t0000000000000000\n\
\n\
totals accepted 0 pending 0 merged 0 delivered 0 suppressed 0 flushed 0\n",
    },
    Run {
        shows: "a second standard signal merges",
        input: r#"{"version":1,"limit":4,"entries":100,"groups":[
{"tgid":10,"name":"demo","threads":[{"tid":10,"blocked":[]}],"actions":[]}],"steps":[
{"actor":10,"do":"mask","tid":10,"set":[10]},
{"actor":900,"do":"kill","tgid":10,"sig":10},
{"actor":900,"do":"kill","tgid":10,"sig":10}]}"#,
        output: "#1 10 mask ok\n\
#2 900 kill sent 1 pending\n\
#3 900 kill sent 2 merged\n\
\n\
Name:\tdemo\n\
State:\tR (running)\n\
Tgid:\t10\n\
Pid:\t10\n\
PPid:\t1\n\
TracerPid:\t0\n\
Threads:\t1\n\
SigQ:\t1/4\n\
SigPnd:\t0000000000000000\n\
ShdPnd:\t0000000000000200\n\
SigBlk:\t0000000000000200\n\
SigIgn:\t0000000000000000\n\
SigCgt:\t0000000000000000\n\
\n\
totals accepted 2 pending 1 merged 1 delivered 0 suppressed 0 flushed 0\n",
    },
    Run {
        shows: "the journal is full, and signal 0 is answered all the same",
        input: r#"{"version":1,"limit":4,"entries":1,"groups":[
{"tgid":10,"name":"demo","threads":[{"tid":10,"blocked":[10]}],"actions":[]}],"steps":[
{"actor":901,"do":"kill","tgid":10,"sig":10},
{"actor":901,"do":"kill","tgid":10,"sig":10},
{"actor":901,"do":"kill","tgid":10,"sig":0}]}"#,
        output: "#1 901 kill sent 1 pending\n\
! 901 kill JournalFull\n\
. 901 kill exists\n\
\n\
Name:\tdemo\n\
State:\tR (running)\n\
Tgid:\t10\n\
Pid:\t10\n\
PPid:\t1\n\
TracerPid:\t0\n\
Threads:\t1\n\
SigQ:\t1/4\n\
SigPnd:\t0000000000000000\n\
ShdPnd:\t0000000000000200\n\
SigBlk:\t0000000000000200\n\
SigIgn:\t0000000000000000\n\
SigCgt:\t0000000000000000\n\
\n\
totals accepted 1 pending 1 merged 0 delivered 0 suppressed 0 flushed 0\n",
    },
    Run {
        shows: "a new ignoring action flushes what waits",
        input: r#"{"version":1,"limit":4,"entries":1000,"groups":[
{"tgid":10,"name":"demo","threads":[{"tid":10,"blocked":[10]}],"actions":[]}],"steps":[
{"actor":901,"do":"kill","tgid":10,"sig":10},
{"actor":10,"do":"action","tid":10,"sig":10,"how":"ignore"}]}"#,
        output: "#1 901 kill sent 1 pending\n\
#2 10 action ok\n\
\n\
Name:\tdemo\n\
State:\tR (running)\n\
Tgid:\t10\n\
Pid:\t10\n\
PPid:\t1\n\
TracerPid:\t0\n\
Threads:\t1\n\
SigQ:\t0/4\n\
SigPnd:\t0000000000000000\n\
ShdPnd:\t0000000000000000\n\
SigBlk:\t0000000000000200\n\
SigIgn:\t0000000000000200\n\
SigCgt:\t0000000000000000\n\
\n\
totals accepted 1 pending 0 merged 0 delivered 0 suppressed 0 flushed 1\n",
    },
    Run {
        shows: "calls are refused, each for its cause",
        input: r#"{"version":1,"limit":4,"entries":1000,"groups":[
{"tgid":10,"name":"demo","threads":[{"tid":10,"blocked":[]}],"actions":[]}],"steps":[
{"actor":10,"do":"mask","tid":10,"set":[10]},
{"actor":901,"do":"kill","tgid":10,"sig":10},
{"actor":10,"do":"action","tid":10,"sig":10,"how":"ignore"},
{"actor":10,"do":"action","tid":10,"sig":9,"how":"catch"},
{"actor":901,"do":"kill","tgid":10,"sig":65},
{"actor":900,"do":"attach","tid":10},
{"actor":900,"do":"attach","tid":10},
{"actor":902,"do":"wait","tid":0},
{"actor":10,"do":"halt","tid":10}]}"#,
        output: "#1 10 mask ok\n\
#2 901 kill sent 1 pending\n\
#3 10 action ok\n\
! 10 action EINVAL 22\n\
! 901 kill EINVAL 22\n\
#4 900 attach sent 2 pending\n\
! 900 attach EPERM 1\n\
! 902 wait ECHILD 10\n\
! 10 halt NotDue\n\
\n\
Name:\tdemo\n\
State:\tR (running)\n\
Tgid:\t10\n\
Pid:\t10\n\
PPid:\t1\n\
TracerPid:\t900\n\
Threads:\t1\n\
SigQ:\t1/4\n\
SigPnd:\t0000000000040000\n\
ShdPnd:\t0000000000000000\n\
SigBlk:\t0000000000000200\n\
SigIgn:\t0000000000000200\n\
SigCgt:\t0000000000000000\n\
\n\
totals accepted 2 pending 1 merged 0 delivered 0 suppressed 0 flushed 1\n",
    },
    Run {
        shows: "stop signals wait in the queue that they were sent to",
        input: r#"{"version":1,"limit":4,"entries":1000,"groups":[
{"tgid":10,"name":"demo","threads":[{"tid":10,"blocked":[]}],"actions":[]}],"steps":[
{"actor":10,"do":"mask","tid":10,"set":[20,21]},
{"actor":901,"do":"tgkill","tgid":10,"tid":10,"sig":20},
{"actor":901,"do":"kill","tgid":10,"sig":21}]}"#,
        output: "#1 10 mask ok\n\
#2 901 tgkill sent 1 pending\n\
#3 901 kill sent 2 pending\n\
\n\
Name:\tdemo\n\
State:\tR (running)\n\
Tgid:\t10\n\
Pid:\t10\n\
PPid:\t1\n\
TracerPid:\t0\n\
Threads:\t1\n\
SigQ:\t2/4\n\
SigPnd:\t0000000000080000\n\
ShdPnd:\t0000000000100000\n\
SigBlk:\t0000000000180000\n\
SigIgn:\t0000000000000000\n\
SigCgt:\t0000000000000000\n\
\n\
totals accepted 2 pending 2 merged 0 delivered 0 suppressed 0 flushed 0\n",
    },
    Run {
        shows: "SIGCONT flushes stop signals from both queues",
        input: r#"{"version":1,"limit":4,"entries":1000,"groups":[
{"tgid":10,"name":"demo","threads":[{"tid":10,"blocked":[]}],"actions":[]}],"steps":[
{"actor":10,"do":"mask","tid":10,"set":[20,21]},
{"actor":901,"do":"tgkill","tgid":10,"tid":10,"sig":20},
{"actor":901,"do":"kill","tgid":10,"sig":21},
{"actor":901,"do":"kill","tgid":10,"sig":18}]}"#,
        output: "#1 10 mask ok\n\
#2 901 tgkill sent 1 pending\n\
#3 901 kill sent 2 pending\n\
#4 901 kill sent 3 flushed\n\
\n\
Name:\tdemo\n\
State:\tR (running)\n\
Tgid:\t10\n\
Pid:\t10\n\
PPid:\t1\n\
TracerPid:\t0\n\
Threads:\t1\n\
SigQ:\t0/4\n\
SigPnd:\t0000000000000000\n\
ShdPnd:\t0000000000000000\n\
SigBlk:\t0000000000180000\n\
SigIgn:\t0000000000000000\n\
SigCgt:\t0000000000000000\n\
\n\
totals accepted 3 pending 0 merged 0 delivered 0 suppressed 0 flushed 3\n",
    },
    Run {
        shows: "SIGCONT flushes stop signals that are blocked from the start",
        input: r#"{"version":1,"limit":4,"entries":1000,"groups":[
{"tgid":10,"name":"demo","threads":[{"tid":10,"blocked":[20,21]}],"actions":[]}],"steps":[
{"actor":901,"do":"tgkill","tgid":10,"tid":10,"sig":20},
{"actor":901,"do":"kill","tgid":10,"sig":21},
{"actor":901,"do":"kill","tgid":10,"sig":18}]}"#,
        output: "#1 901 tgkill sent 1 pending\n\
#2 901 kill sent 2 pending\n\
#3 901 kill sent 3 flushed\n\
\n\
Name:\tdemo\n\
State:\tR (running)\n\
Tgid:\t10\n\
Pid:\t10\n\
PPid:\t1\n\
TracerPid:\t0\n\
Threads:\t1\n\
SigQ:\t0/4\n\
SigPnd:\t0000000000000000\n\
ShdPnd:\t0000000000000000\n\
SigBlk:\t0000000000180000\n\
SigIgn:\t0000000000000000\n\
SigCgt:\t0000000000000000\n\
\n\
totals accepted 3 pending 0 merged 0 delivered 0 suppressed 0 flushed 3\n",
    },
    Run {
        shows: "a signal that is ignored by default is taken",
        input: r#"{"version":1,"limit":4,"entries":1000,"groups":[
{"tgid":10,"name":"demo","threads":[{"tid":10,"blocked":[]}],"actions":[]}],"steps":[
{"actor":10,"do":"mask","tid":10,"set":[17]},
{"actor":901,"do":"kill","tgid":10,"sig":17},
{"actor":10,"do":"mask","tid":10,"set":[]},
{"actor":10,"do":"take","tid":10}]}"#,
        output: "#1 10 mask ok\n\
#2 901 kill sent 1 pending\n\
#3 10 mask ok\n\
#4 10 take took 10 1 17 0 ignored\n\
\n\
Name:\tdemo\n\
State:\tR (running)\n\
Tgid:\t10\n\
Pid:\t10\n\
PPid:\t1\n\
TracerPid:\t0\n\
Threads:\t1\n\
SigQ:\t0/4\n\
SigPnd:\t0000000000000000\n\
ShdPnd:\t0000000000000000\n\
SigBlk:\t0000000000000000\n\
SigIgn:\t0000000000000000\n\
SigCgt:\t0000000000000000\n\
\n\
totals accepted 1 pending 0 merged 0 delivered 1 suppressed 0 flushed 0\n",
    },
    Run {
        shows: "there is no group",
        input: r#"{"version":1,"limit":4,"entries":1000,"groups":[],"steps":[
{"actor":1,"do":"starter_wait","tgid":0,"untraced":false,"continued":false}]}"#,
        output: "! 1 starter_wait ECHILD 10\n\
\n\
totals accepted 0 pending 0 merged 0 delivered 0 suppressed 0 flushed 0\n",
    },
];
