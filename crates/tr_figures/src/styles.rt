ghost use Rattle.std.specs.Prelude.{◌≡◌};
ghost use Rattle.tr_figures.specs.Styles.{style_name, style_sheet};

/// A class of the style sheet.
#[derive(Clone, Copy, Debug, PartialEq, Eq)]
pub enum Style {
    Running,
    Pausing,
    Stopped,
    SignalStop,
    GroupStop,
    EventStop,
    ExitStop,
    Listening,
    Execing,
    Leaving,
    Dead,
    /// A group in no group-stop.
    NoStop,
    /// A group some of whose threads have still to stop.
    Stopping,
    Ink,
    Dim,
    /// The words in a block.
    Name,
    /// What waits in a queue.
    Waiting,
    Report,
    Request,
    Send,
    /// A wait that was answered.
    Takes,
    Refused,
    /// A clone, or an id that passes on.
    Joins,
    Ground,
    Chip,
}

impl Style {
    /// Gives the name of the class.
    pub fn name(self) -> &'static str
        ensures { result.now ≡ style_name self }
    {
        match self {
            Style::Running => "fr",
            Style::Pausing => "pa",
            Style::Stopped => "st",
            Style::SignalStop => "ss",
            Style::GroupStop => "gs",
            Style::EventStop => "es",
            Style::ExitStop => "xs",
            Style::Listening => "li",
            Style::Execing => "ex",
            Style::Leaving => "le",
            Style::Dead => "de",
            Style::NoStop => "no",
            Style::Stopping => "gp",
            Style::Ink => "tx",
            Style::Dim => "dm",
            Style::Name => "nm",
            Style::Waiting => "wt",
            Style::Report => "rp",
            Style::Request => "rq",
            Style::Send => "sn",
            Style::Takes => "tk",
            Style::Refused => "rf",
            Style::Joins => "jn",
            Style::Ground => "bg",
            Style::Chip => "ch",
        }
    }
}

/// Gives the style sheet: for light screens, and then for dark ones. Words have a contrast of 4.5 to 1 or more on each
/// ground.
#[tactic(auto, unfolding(crate::specs::Styles::style_sheet))]
pub fn style_sheet() -> &'static str
    ensures { result.now ≡ style_sheet }
{
    "\
text[class]{font:12px monospace;stroke:none}text.dm{font-size:11px}.ch,.no{stroke:#888}\
line.rf{stroke-dasharray:4 3}line.dm{stroke-dasharray:1 3}.fr{fill:#d8f0d8}.pa{fill:#e3ecf4}\
.st{fill:#f6d6d6}.ss{fill:#fbe2bd}.gs{fill:#f0d4e6}.es{fill:#dcd6f6}.xs{fill:#e6decb}\
.li{fill:#cfecef}.ex{fill:#eceebd}.le{fill:#dcdcdc}.de{fill:#c6c6c6}.gp{fill:#fde3d2}\
.no,.bg,.ch{fill:#fff}.tx,.nm{fill:#111;stroke:#111}.dm{fill:#4a4a4a;stroke:#4a4a4a}\
.wt,.sn{fill:#7a3a00;stroke:#7a3a00}.rp,.tk{fill:#004a8a;stroke:#004a8a}\
.rq{fill:#3a4a5a;stroke:#3a4a5a}.rf{fill:#a0001c;stroke:#a0001c}\
.jn{fill:#6a1b9a;stroke:#6a1b9a}@media(prefers-color-scheme:dark){.fr{fill:#1f4a24}\
.pa{fill:#2a3947}.st{fill:#5a2626}.ss{fill:#5c4012}.gs{fill:#54264a}.es{fill:#38306a}\
.xs{fill:#4a4230}.li{fill:#164a50}.ex{fill:#4a4a16}.le{fill:#3c3c3c}.de{fill:#2c2c2c}\
.gp{fill:#5c3318}.no,.bg,.ch{fill:#15171c}.tx,.nm{fill:#f0f0f0;stroke:#f0f0f0}\
.dm{fill:#c4c4c4;stroke:#c4c4c4}.wt,.sn{fill:#ffc080;stroke:#ffc080}\
.rp,.tk{fill:#8cc8ff;stroke:#8cc8ff}.rq{fill:#b8c8d8;stroke:#b8c8d8}\
.rf{fill:#ff9ea6;stroke:#ff9ea6}.jn{fill:#dcb8ff;stroke:#dcb8ff}}"
}
