// What the export of the batch tells of how a run ended: its result, and its outs, which a refused state leaves.
#![tactic(auto)]

ghost use Rattle.std.specs.Prelude.{◌≡◌};
ghost use Rattle.batch_answers.specs.Answers.{code_of, kept};

// The result: 25 where the state was refused, else 0.
pub fn code_of(end: u8) -> u8
    ensures { result ≡ code_of end }
{
    if end == refusal::BUFFERS { end } else { 0 }
}

// An out after a run that ended so.
pub fn kept(end: u8, was: usize, after: usize) -> usize
    ensures { result ≡ kept end was after }
{
    if end == refusal::BUFFERS { was } else { after }
}

// The out `end` after a run that ended so.
pub fn kept_end(end: u8, was: u8) -> u8
    ensures { result ≡ kept end was end }
{
    if end == refusal::BUFFERS { was } else { end }
}
