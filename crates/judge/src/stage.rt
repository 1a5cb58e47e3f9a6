// The order of the lines of a whole transcript.
ghost use Rattle.std.specs.Prelude.{◌≡◌, ◌↔◌, IsTrue};
ghost use Rattle.judge.specs.declared.stage.Stage.TheVariants.{Over};
ghost use Rattle.judge.specs.Stage.{after_line, begun, on_event};

use nvm_model::Line;

/// How far a whole transcript is read.
#[derive(Clone, Copy)]
pub(crate) enum Stage {
    /// The first line comes.
    Title,
    /// The second line comes.
    Ready,
    /// Events come, or the migration that the script asks for.
    Before,
    /// Events and rounds of the migration come, or its ending.
    Rounds,
    /// The round of a `restart` comes.
    Restarted,
    /// The pause comes, or the source goes on.
    Suspended,
    /// `resume to` comes.
    Paused,
    /// Events come, or the last line.
    After,
    /// Nothing comes.
    Over,
}

impl Stage {
    /// Whether a whole transcript was read.
    pub(crate) fn is_over(self) -> bool
        ensures { IsTrue result ↔ self ≡ Over }
    {
        matches!(self, Stage::Over)
    }

    /// The stage behind a line, if the line may come here.
    pub(crate) fn after_line(self, migrate: Option<u32>, line: &Line) -> Option<Stage>
        ensures { result ≡ after_line migrate self line.now }
    {
        match (line, self) {
            (Line::Title, Stage::Title) => Some(Stage::Ready),
            (Line::Ready, Stage::Ready) => Some(begun(migrate)),
            (
                Line::Act { .. }
                | Line::Reap { .. }
                | Line::Fetch { .. }
                | Line::Piece { .. }
                | Line::Post { .. },
                _,
            ) => self.on_event(),
            (Line::Migrate, Stage::Before) => Some(Stage::Rounds),
            (Line::Restart, Stage::Rounds) => Some(Stage::Restarted),
            (Line::Round { .. }, Stage::Rounds | Stage::Restarted) => Some(Stage::Rounds),
            (Line::Suspend, Stage::Rounds) => Some(Stage::Suspended),
            (Line::Pause { .. }, Stage::Suspended) => Some(Stage::Paused),
            (Line::ResumeTo, Stage::Paused) => Some(Stage::After),
            (Line::GiveUp, Stage::Rounds | Stage::Suspended) => Some(Stage::After),
            (Line::End, Stage::After) => Some(Stage::Over),
            _ => None,
        }
    }

    /// The stage behind an event.
    fn on_event(self) -> Option<Stage>
        ensures { result ≡ on_event self }
    {
        match self {
            Stage::Before | Stage::Rounds | Stage::After => Some(self),
            Stage::Title
            | Stage::Ready
            | Stage::Restarted
            | Stage::Suspended
            | Stage::Paused
            | Stage::Over => None,
        }
    }
}

/// The stage behind the second line.
fn begun(migrate: Option<u32>) -> Stage
    ensures { result ≡ begun migrate }
{
    match migrate {
        None => Stage::After,
        Some(_) => Stage::Before,
    }
}
