ghost use Rattle.std.specs.Prelude.{◌≡◌, IfOk, false};
ghost use Rattle.clap.specs.Words.{app_of};
ghost use Rattle.clap.specs.declared.builder.command.Command.TheViews.{out-Command as fields_of};
ghost use Rattle.tr_commands.specs.CommandLine.{bounded_app, compare_app, decode_app, draw_app, drawing_app, explain_app, explore_app, free_app, live_app, readers_app, runs_app, scenarios_app, serial_app, telling_app, threads_app, tracebox};

use clap::builder::ValueParser;
use clap::{Arg, ArgAction, Command};
use std::alloc::{AllocError, Global};

const VERSION: &str = "0.1.0";

/// The most turns of each worker, and the most states of a search.
pub(crate) const MOST: u64 = 100_000_000;

const PROGRAM_END: &str =
    "`serial`, `threads`, `explore`, `explain` and `draw` read a scenario on standard input, `live` what\n\
is said in a dialogue, `compare` a record, `decode` nothing but its WORD. All print on standard output. A\n\
fault goes to standard error, as `tracebox: ` and its name. Exit status: 0 done, also help; 1 the\n\
input is refused, no status has the word, a run doesn't settle, there are too many states, or an\n\
answer differs; 2 the command line isn't one of these; 3 memory, the reader or the writer failed.\n\n\
Example:\n  \
tracebox serial < scenario.json";

const SERIAL: &str = "Runs the scenario on standard input, one call after another.\n\n\
Reads one JSON object of at most 1,048,576 bytes: where a kernel starts from, and the steps that\n\
are made, or scripts of workers, which make their calls in rounds. Prints a line for each call and\n\
each worker, then the status of each thread, then how many signals were accepted and what became of\n\
them. Nothing is printed of an input that is refused.";

const SERIAL_END: &str =
    "Events, as `do` names them, with their fields beside `actor` and `times`:\n  \
kill tgid sig           tgkill tgid tid sig     sigqueue tgid sig value\n  \
mask tid set            action tid sig how      pause tid\n  \
take tid                take_any tgid           halt tid\n  \
trap tid                die tid                 clone tid\n  \
exec tid                finish tid              exit tid code\n  \
exit_group tid code     attach tid              seize tid options\n  \
interrupt tid           cont tid sig            listen tid\n  \
detach tid sig          options tid options     message tid\n  \
siginfo tid             tracer_exit             wait tid\n  \
starter_wait tgid untraced continued\n\n\
Example:\n  \
echo '{\"version\":1,\"limit\":4,\"entries\":9,\"groups\":[{\"tgid\":10,\"name\":\"demo\",\"actions\":[],\n    \
\"threads\":[{\"tid\":10,\"blocked\":[]}]}],\"steps\":[{\"actor\":900,\"do\":\"kill\",\"tgid\":10,\"sig\":15}]}' |\n    \
tracebox serial\n\
prints `#1 900 kill sent 1 pending`, the thread's status, and the totals.";

const THREADS: &str =
    "Runs the scenario on standard input by workers, each on a thread of its own.\n\n\
Reads the same scenario as `serial`, its steps with at most 64 actors. Each actor of steps is a\n\
worker, and makes its own steps in their order; which worker comes first is open. Prints a line for\n\
each worker, then the status of each thread, then how many signals were accepted and what became of\n\
them, and `settled` where what the workers were told is what the kernel holds.";

const THREADS_END: &str = "Example:\n  \
tracebox threads --turns 1000 < scenario.json\n\
prints for each worker a line as `worker 900 entries 100 accepted 100 refused 0 end`. The line ends in\n\
`turns` where the worker's turns were used up before its calls.";

const EXPLORE: &str = "Explores all schedules of the scenario's workers on standard input.\n\n\
Reads the same scenario as `threads`. At each moment any worker makes its next call; all orders of\n\
that are looked at, and a state that was met before is not looked at again. Prints how many states\n\
and steps there are, and each different end: how many states have it, and a shortest schedule that\n\
leads there, as the places of workers in the scenario, from 0; whether each worker is at its end or\n\
where it is stuck; the status of each thread; and the totals. An end is a state from which no\n\
schedule leads to another table, other totals or a script further on. Last comes `complete`. With\n\
more states than N, prints only that, and the exit status is 1.\n\n\
With `--free` each call is made in every way that the model leaves open: with each instance, thread\n\
or report that it admits, where else it is made with the one that `serial` takes. A new id is always\n\
the same. In a schedule a worker whose call is made in another way than that has the number of the\n\
way behind its own, as `1.2`.\n\n\
With `--end K` prints in place of that a scenario of version 1 with the same start and a step for\n\
each call of the schedule of end K, for `serial` and `explain`; or that there is no such end, and\n\
the exit status is 1.";

const EXPLORE_END: &str = "Example:\n  \
tracebox explore --states 1000 < scenario.json\n\
prints first a line as `states 12 steps 20 ends 2`, and for each end a line as\n  \
end 1 states 3 schedule 0 1 1 0\n\n  \
tracebox explore --end 1 < scenario.json | tracebox serial\n\
runs the calls of that schedule.";

const EXPLAIN: &str =
    "Runs the scenario on standard input as `serial` does, and tells why each call is answered so.\n\n\
Prints below the line of a call, where it is refused, the condition that it doesn't meet; where it\n\
makes no entry, what it finds; and where it puts a thread into a stop, which. Each such line names\n\
the manual page that has the rule, or `this model's choice`. Of an input that is refused it prints\n\
the name of the fault, where the first mistake stands, and what is wanted there:\n  \
BadField: steps[3].sig: a whole number from 0 to 255 is wanted";

const EXPLAIN_END: &str = "Example:\n  \
echo '{\"version\":1,\"limit\":4,\"entries\":9,\"groups\":[{\"tgid\":10,\"name\":\"demo\",\"actions\":[],\n    \
\"threads\":[{\"tid\":10,\"blocked\":[]}]}],\"steps\":[{\"actor\":900,\"do\":\"cont\",\"tid\":10,\"sig\":0}]}' |\n    \
tracebox explain\n\
prints the lines of `serial`, and below the first\n  \
  ESRCH: thread 10 isn't traced by the actor; ptrace(2), ERRORS";

const DRAW: &str = "Runs the scenario on standard input as `serial` does, and draws the run.\n\n\
Prints one SVG: time runs down, with a row for each call and its answer, a lane for each actor, each\n\
group and each of its threads. A row shows what each does after the call, what waits for it, who\n\
traces it, and the report that no wait has taken or that was withdrawn; below its answer, how signals\n\
ended. An arrow shows whom the call is about, its clone, or the id that execve(2) gave. Calls whose\n\
rows look the same share one row. At most 200 rows are drawn, and lanes of 8 actors, 16 groups and 16\n\
threads; how many more there are is told below. Nothing is printed of an input that is refused.";

const DRAW_END: &str = "Example:\n  \
tracebox draw < scenario.json > scenario.svg\n\
writes a picture for a browser, in light colours or in dark ones, as its reader likes.";

const LIVE: &str =
    "Holds a dialogue with a kernel: answers each line on standard input before it reads the next.\n\n\
A line is one JSON object of at most 65,536 bytes. The first is a scenario of version 1 without\n\
`steps`, and opens a kernel; each after it is a step, whose calls are made and answered as `serial`\n\
prints them, or asks for a text by `show`. A line that is refused is answered by `refused`, its\n\
fault, and the place of the first mistake and what is wanted there, and changes nothing. An empty\n\
line stands behind each answer.";

const LIVE_END: &str = "Lines that ask for a text:\n  \
{\"show\":\"status\",\"tid\":10}   {\"show\":\"table\"}   {\"show\":\"totals\"}\n\n\
Example:\n  \
printf '%s\\n' '{\"version\":1,\"limit\":4,\"entries\":9,\"groups\":[{\"tgid\":10,\"name\":\"demo\",\"actions\":[],\n    \
\"threads\":[{\"tid\":10,\"blocked\":[]}]}]}' '{\"actor\":900,\"do\":\"kill\",\"tgid\":10,\"sig\":15}' |\n    \
tracebox live\n\
prints `started`, an empty line, `#1 900 kill sent 1 pending` and an empty line.";

const COMPARE: &str = "Compares the record on standard input with what the model admits.\n\n\
Reads a record: a scenario of version 1 in which a step may have `answer`, a text that another\n\
system answered to each of its calls, as `serial` prints it after the event's name. A word of it may\n\
be `_`, which fits any word. Prints for each answer with a `_` the one that was assumed; then how\n\
many answers agree, or the first that no step of the model admits, and what is admitted there. The\n\
exit status is 0 where all agree, and 1 where one differs. Nothing is printed of an input that is\n\
refused.";

const COMPARE_END: &str = "Example:\n  \
echo '{\"version\":1,\"limit\":4,\"entries\":9,\"groups\":[{\"tgid\":10,\"name\":\"demo\",\"actions\":[],\n    \
\"threads\":[{\"tid\":10,\"blocked\":[]}]}],\"steps\":[{\"actor\":900,\"do\":\"kill\",\"tgid\":10,\"sig\":15,\n    \
\"answer\":\"sent 1 merged\"}]}' | tracebox compare\n\
prints\n  \
step 1: `900 kill`: answered `sent 1 merged`; admitted: `sent 1 pending`";

const DECODE: &str = "Tells the status that a wait status word has, as waitpid(2) gives it.\n\n\
Prints one line: exited CODE, killed SIGNAL, stopped SIGNAL, event clone, event exec, event exit,\n\
event stop SIGNAL or continued.";

const DECODE_END: &str = "Example:\n  \
tracebox decode 80137f\n\
prints `event stop 19`.";

/// The command line of the program.
pub(crate) fn command<'a>(alloc: Global) -> Result<Command<'a>, AllocError>
    ensures { IfOk result (λ c. app_of c ≡ tracebox) }
{
    let decode = decode_command(alloc)?;
    let command = readers_command(alloc)?;
    command.subcommand(decode)
}

/// The command line with the words that read standard input alone.
fn readers_command<'a>(alloc: Global) -> Result<Command<'a>, AllocError>
    ensures { IfOk result (λ c. app_of c ≡ readers_app) }
{
    telling_command(alloc)?.subcommand(compare_command(alloc))
}

/// The command line with the words that run a scenario, explore, explain or draw it, or hold a dialogue.
fn telling_command<'a>(alloc: Global) -> Result<Command<'a>, AllocError>
    ensures { IfOk result (λ c. app_of c ≡ telling_app) }
{
    drawing_command(alloc)?.subcommand(live_command(alloc))
}

/// The command line with the words that run a scenario, explore, explain or draw it.
fn drawing_command<'a>(alloc: Global) -> Result<Command<'a>, AllocError>
    ensures { IfOk result (λ c. app_of c ≡ drawing_app) }
{
    let command = scenarios_command(alloc)?.subcommand(explain_command(alloc))?;
    command.subcommand(draw_command(alloc))
}

/// The command line with the words that run a scenario or explore its schedules.
fn scenarios_command<'a>(alloc: Global) -> Result<Command<'a>, AllocError>
    ensures { IfOk result (λ c. app_of c ≡ scenarios_app) }
{
    let explore = explore_command(alloc)?;
    runs_command(alloc)?.subcommand(explore)
}

/// The command line with the words that run a scenario alone.
fn runs_command<'a>(alloc: Global) -> Result<Command<'a>, AllocError>
    ensures { IfOk result (λ c. app_of c ≡ runs_app) }
{
    let threads = threads_command(alloc)?;
    let command = Command::new(alloc, "tracebox")
        .about("A model kernel of Linux process tracing")
        .after_help(PROGRAM_END)
        .version(VERSION)
        .subcommand_required(true);
    let command = command.subcommand(serial_command(alloc))?;
    command.subcommand(threads)
}

fn serial_command<'a>(alloc: Global) -> Command<'a>
    ensures app { app_of result ≡ serial_app }
    ensures local { (fields_of result).has_globals ≡ false }
{
    Command::new(alloc, "serial")
        .about("Runs the scenario on standard input, one call after another")
        .long_about(SERIAL)
        .after_help(SERIAL_END)
}

fn threads_command<'a>(alloc: Global) -> Result<Command<'a>, AllocError>
    ensures app { IfOk result (λ c. app_of c ≡ threads_app) }
    ensures local { IfOk result (λ c. (fields_of c).has_globals ≡ false) }
{
    let turns = Arg::new(alloc, "turns")
        .long("turns")
        .value_name("N")
        .help("How many turns each worker has, 1 to 100,000,000: each call takes one")
        .action(ArgAction::Set)
        .value_parser(ValueParser::Unsigned(1, MOST))
        .default_value("100000");
    Command::new(alloc, "threads")
        .about("Runs the scenario on standard input by workers, each on a thread of its own")
        .long_about(THREADS)
        .after_help(THREADS_END)
        .arg(turns)
}

fn bounded_command<'a>(alloc: Global) -> Result<Command<'a>, AllocError>
    ensures app { IfOk result (λ c. app_of c ≡ bounded_app) }
    ensures local { IfOk result (λ c. (fields_of c).has_globals ≡ false) }
{
    let states = Arg::new(alloc, "states")
        .long("states")
        .value_name("N")
        .help("How many states are looked at, 1 to 100,000,000")
        .action(ArgAction::Set)
        .value_parser(ValueParser::Unsigned(1, MOST))
        .default_value("1000000");
    Command::new(alloc, "explore")
        .about("Explores all schedules of the scenario's workers on standard input")
        .long_about(EXPLORE)
        .after_help(EXPLORE_END)
        .arg(states)
}

fn free_command<'a>(alloc: Global) -> Result<Command<'a>, AllocError>
    ensures app { IfOk result (λ c. app_of c ≡ free_app) }
    ensures local { IfOk result (λ c. (fields_of c).has_globals ≡ false) }
{
    let free = Arg::new(alloc, "free")
        .long("free")
        .help("Makes each call in every way that the model leaves open")
        .action(ArgAction::SetTrue);
    bounded_command(alloc)?.arg(free)
}

fn explore_command<'a>(alloc: Global) -> Result<Command<'a>, AllocError>
    ensures app { IfOk result (λ c. app_of c ≡ explore_app) }
    ensures local { IfOk result (λ c. (fields_of c).has_globals ≡ false) }
{
    let end = Arg::new(alloc, "end")
        .long("end")
        .value_name("K")
        .help("Prints, in place of the report, a scenario that runs into end K")
        .action(ArgAction::Set)
        .value_parser(ValueParser::Unsigned(1, MOST));
    free_command(alloc)?.arg(end)
}

fn explain_command<'a>(alloc: Global) -> Command<'a>
    ensures app { app_of result ≡ explain_app }
    ensures local { (fields_of result).has_globals ≡ false }
{
    Command::new(alloc, "explain")
        .about("Runs the scenario on standard input, and tells why each call is answered so")
        .long_about(EXPLAIN)
        .after_help(EXPLAIN_END)
}

fn draw_command<'a>(alloc: Global) -> Command<'a>
    ensures app { app_of result ≡ draw_app }
    ensures local { (fields_of result).has_globals ≡ false }
{
    Command::new(alloc, "draw")
        .about("Runs the scenario on standard input, and draws the run")
        .long_about(DRAW)
        .after_help(DRAW_END)
}

fn live_command<'a>(alloc: Global) -> Command<'a>
    ensures app { app_of result ≡ live_app }
    ensures local { (fields_of result).has_globals ≡ false }
{
    Command::new(alloc, "live")
        .about("Holds a dialogue with a kernel, a line at a time")
        .long_about(LIVE)
        .after_help(LIVE_END)
}

fn compare_command<'a>(alloc: Global) -> Command<'a>
    ensures app { app_of result ≡ compare_app }
    ensures local { (fields_of result).has_globals ≡ false }
{
    Command::new(alloc, "compare")
        .about("Compares the record on standard input with what the model admits")
        .long_about(COMPARE)
        .after_help(COMPARE_END)
}

fn decode_command<'a>(alloc: Global) -> Result<Command<'a>, AllocError>
    ensures app { IfOk result (λ c. app_of c ≡ decode_app) }
    ensures local { IfOk result (λ c. (fields_of c).has_globals ≡ false) }
{
    let word = Arg::new(alloc, "WORD")
        .help("1 to 8 hexadecimal digits, without a prefix, as `printf %x` prints a wait status")
        .action(ArgAction::Set)
        .required(true);
    Command::new(alloc, "decode")
        .about("Tells the status that a wait status word has")
        .long_about(DECODE)
        .after_help(DECODE_END)
        .arg(word)
}
