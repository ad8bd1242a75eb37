// The lines of a script, read one after another.
ghost use Rattle.std.specs.Prelude.{◌≡◌, [], ◌∷◌, ◌++◌, IfOk, OnOk};
ghost use Rattle.rehearse.specs.Scripts.{settings_by, calls_by, marks_by, script_of};
ghost use Rattle.rehearse.specs.declared.lines.Mark.{Mark};

use entries::Lines;
use order::Call;
use script::{Line, Misread, Settings, read_line};
use std::alloc::{AllocError, Global};

// A line that makes a call or cannot be read, by its number.
#[derive(Clone, Copy, Debug, PartialEq, Eq, Hash)]
pub struct Mark {
    pub line: usize,
    // what is wrong with it, where it cannot be read
    pub misread: Option<Misread>,
}

// What a script says.
#[derive(Drop)]
pub struct Script {
    pub at: Settings,
    pub calls: Vec<Call>,
    // in the order of the script
    pub marks: Vec<Mark>,
}

impl Script {
    // Notes that a line makes a call, or what is wrong with it.
    fn mark(&mut self, line: usize, misread: Option<Misread>) -> Result<(), AllocError>
        ensures marks { OnOk result (self.new.marks.items ≡ self.old.marks.items ++ (record { line = line; misread = misread } ∷ [])) }
        ensures rest { (self.new.at ≡ self.old.at) × (self.new.calls ≡ self.old.calls) }
    {
        self.marks.push(Mark { line, misread })?;
        Ok(())
    }

    // Notes what a line says.
    fn take(&mut self, line: usize, read: Result<Option<Line>, Misread>) -> Result<(), AllocError>
        ensures at { OnOk result (self.new.at ≡ settings_by self.old.at read) }
        ensures calls { OnOk result (self.new.calls.items ≡ self.old.calls.items ++ calls_by read) }
        ensures marks { OnOk result (self.new.marks.items ≡ self.old.marks.items ++ marks_by line read) }
    {
        match read {
            Ok(None) => Ok(()),
            Ok(Some(said)) => {
                self.at = self.at.with(said);
                match said {
                    Line::Call(call) => {
                        self.calls.push(call)?;
                        self.mark(line, None)
                    }
                    _ => Ok(()),
                }
            }
            Err(misread) => self.mark(line, Some(misread)),
        }
    }
}

// Reads a script, line after line.
pub fn read_script(heap: Global, text: &[u8]) -> Result<Script, AllocError>
    ensures at { IfOk result (λ s. s.at ≡ (script_of text.now).at) }
    ensures calls { IfOk result (λ s. s.calls.items ≡ (script_of text.now).calls) }
    ensures marks { IfOk result (λ s. s.marks.items ≡ (script_of text.now).marks) }
{
    let mut script = Script {
        at: Settings::default(),
        calls: Vec::new(heap),
        marks: Vec::new(heap),
    };
    for (before, line) in Lines(text).enumerate() {
        let read = read_line(line, script.at);
        script.take(before + 1, read)?;
    }
    Ok(script)
}
