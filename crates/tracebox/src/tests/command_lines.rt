use super::*;

/// Words as a Linux kernel writes them.
#[test]
fn a_word_is_told(rt: HostRuntime) {
    for (word, line) in [
        ("80137f", "event stop 19\n"),
        ("80057f", "event stop 5\n"),
        ("4057f", "event exec\n"),
        ("3057f", "event clone\n"),
        ("6057f", "event exit\n"),
        ("300", "exited 3\n"),
        ("0", "exited 0\n"),
        ("ff00", "exited 255\n"),
        ("40", "killed 64\n"),
        ("9", "killed 9\n"),
        ("a7f", "stopped 10\n"),
        ("0000A7F", "stopped 10\n"),
        ("00000a7F", "stopped 10\n"),
        ("407f", "stopped 64\n"),
        ("ffff", "continued\n"),
        ("FFFF", "continued\n"),
    ] {
        expect(&rt, &["tracebox", "decode", word], "", (0, line, ""));
    }
}

#[test]
fn a_word_has_no_status(rt: HostRuntime) {
    let want = (1, "", "tracebox: NotAWord\n");
    for word in ["7f", "41", "89", "417f", "80177f", "ffffffff"] {
        expect(&rt, &["tracebox", "decode", word], "", want);
    }
}

#[test]
fn a_word_is_of_another_form(rt: HostRuntime) {
    let want = (2, "", "tracebox: Usage\n");
    for word in [
        "",
        "7g",
        "123456789",
        "000000000",
        "0x7f",
        "+7f",
        "-7f",
        " 7f",
        "7f ",
        "٣",
    ] {
        expect(&rt, &["tracebox", "decode", word], "", want);
    }
}

fn expect_usage(rt: &impl Machine, words: &[&str]) {
    expect(rt, words, "", (2, "", "tracebox: Usage\n"));
}

#[test]
fn a_command_line_is_not_taken(rt: HostRuntime) {
    expect_usage(&rt, &[]);
    expect_usage(&rt, &["tracebox"]);
    expect_usage(&rt, &["tracebox", "Serial"]);
    expect_usage(&rt, &["tracebox", "serial", "10"]);
    expect_usage(&rt, &["tracebox", "serial", "--version"]);
    expect_usage(&rt, &["tracebox", "compare", "record.json"]);
    expect_usage(&rt, &["tracebox", "Compare"]);
    expect_usage(&rt, &["tracebox", "decode"]);
    expect_usage(&rt, &["tracebox", "decode", "0", "0"]);
    expect_usage(&rt, &["tracebox", "--turns", "9", "serial"]);
}

/// That the words are answered with a text in which each of these stands.
fn expect_help(rt: &impl Machine, words: &[&str], parts: &[&str]) {
    let done = done(rt, words, b"", SOUND);
    same(rt, &done.status, &0);
    same(rt, &text(&done.told), &"");
    let help = text(&done.written);
    for part in parts {
        assert!(rt; help.contains(*part), "{help}");
    }
}

#[test]
fn help_is_written(rt: HostRuntime) {
    for word in ["help", "-h", "--help"] {
        let parts = [
            "Usage: tracebox <COMMAND>\n",
            "serial",
            "compare",
            "decode",
            "Exit status",
            "Example",
        ];
        expect_help(&rt, &["tracebox", word], &parts);
    }
    let serial = [
        "Usage: tracebox serial\n",
        "JSON",
        "standard input",
        "line for each call",
        "sigqueue tgid sig value\n",
        "starter_wait tgid untraced continued\n",
        "Example",
    ];
    expect_help(&rt, &["tracebox", "serial", "--help"], &serial);
    expect_help(&rt, &["tracebox", "help", "serial"], &serial);
    let compare = [
        "Usage: tracebox compare\n",
        "standard input",
        "`answer`",
        "`_`",
        "agree",
        "Example",
    ];
    expect_help(&rt, &["tracebox", "compare", "--help"], &compare);
    expect_help(&rt, &["tracebox", "help", "compare"], &compare);
    let decode = [
        "Usage: tracebox decode <WORD>\n",
        "event stop SIGNAL",
        "`printf %x`",
        "Example",
    ];
    expect_help(&rt, &["tracebox", "decode", "--help"], &decode);
    expect_help(&rt, &["tracebox", "help", "decode"], &decode);
}

#[test]
fn name_and_version_are_written(rt: HostRuntime) {
    expect(
        &rt,
        &["tracebox", "--version"],
        "",
        (0, "tracebox 0.1.0\n", ""),
    );
    expect(&rt, &["tracebox", "-V"], "", (0, "tracebox 0.1.0\n", ""));
}

/// That a fault has this name and this exit status.
fn is_told(rt: &impl Abort, fault: ScenarioFault, name: &str, status: u8) {
    same(rt, &Fault::Scenario(fault).name(), &name);
    same(rt, &Fault::Scenario(fault).status(), &status);
}

#[test]
fn faults_have_statuses(rt: HostRuntime) {
    for (fault, name, status) in [
        (ScenarioFault::NotJson, "NotJson", 1),
        (ScenarioFault::BadField, "BadField", 1),
        (ScenarioFault::BadSignal, "BadSignal", 1),
        (ScenarioFault::TooLarge, "TooLarge", 1),
        (ScenarioFault::Repeated, "Repeated", 1),
        (ScenarioFault::BadStart, "BadStart", 1),
        (ScenarioFault::Unsettled, "Unsettled", 1),
        (ScenarioFault::NoMemory, "NoMemory", 3),
        (ScenarioFault::ReadFault, "ReadFault", 3),
        (ScenarioFault::WriteFault, "WriteFault", 3),
    ] {
        is_told(&rt, fault, name, status);
    }
}

/// That the words end with this status where no fault can be told.
fn expect_untold(rt: &impl Machine, words: &[&str], failing_put: usize, status: u8) {
    let ways = Ways {
        failing_put,
        failing_tell: 1,
        ..SOUND
    };
    let done = done(rt, words, b"", ways);
    same(rt, &done.status, &status);
    same(rt, &done.told.len(), &0);
}

#[test]
fn a_status_stays_where_its_fault_cannot_be_told(rt: HostRuntime) {
    expect_untold(&rt, &["tracebox", "decode", "41"], 0, 1);
    expect_untold(&rt, &["tracebox", "decode", "7g"], 0, 2);
    expect_untold(&rt, &["tracebox", "decode", "0"], 1, 3);
    expect_untold(&rt, &["tracebox", "decode", "0"], 0, 0);
}

/// That so much is written where the writer, which takes five bytes a put, fails at one.
fn expect_front(rt: &impl Machine, words: &[&str], failing_put: usize, written: &str) {
    let ways = Ways {
        most: 5,
        failing_put,
        ..SOUND
    };
    let want = (3, written, "tracebox: WriteFault\n");
    expect_outcome(rt, &done(rt, words, b"", ways), want);
}

#[test]
fn a_writer_fails(rt: HostRuntime) {
    expect_front(&rt, &["tracebox", "decode", "300"], 1, "");
    expect_front(&rt, &["tracebox", "decode", "300"], 2, "exite");
    expect_front(&rt, &["tracebox", "help", "decode"], 2, "Tells");
}
