// The sequence step on a single lent record: the step by value is called, and the record that it leaves is written back. It stands on the path of every request.
#![tactic(auto)]

ghost use Rattle.std.specs.Prelude.{◌≡◌};
ghost use Rattle.protocol.specs.ConnectionRecord.{step_of, told_step, sequence_step};

use protocol::{Connection, Left, Misfit, SequenceLayerHeader, Step};

// The sequence step on a single lent record, which is written back: the answer's header so far, or that the frame does not fit.
// (Record and header stay two: one is lent and changed, the other only read.)
pub fn step_record(
    c: &mut Connection,
    h: SequenceLayerHeader,
) -> Result<SequenceLayerHeader, Misfit>
    ensures { step_of c.new result ≡ sequence_step c.old h }
{
    let s = sequence_layer::sequence_step(*c, h);
    *c = s.connection;
    s.said
}

// The sequence step on a record by value, which is lent to step_record and taken back.
// (`sequence_layer::sequence_step` has this clause too: here the record is lent, so that a lent record is changed on the path of every request.)
pub fn sequence_step(c: Connection, h: SequenceLayerHeader) -> Step
    ensures { told_step result ≡ sequence_step c h }
{
    let mut connection = c;
    let said = step_record(&mut connection, h);
    Left { connection, said }
}
