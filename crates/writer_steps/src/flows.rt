// The flow record beside the other calls of a step.
ghost use Rattle.std.specs.Prelude.{◌≡◌};
ghost use Rattle.writer_steps.specs.Readers.{beside_flow, after};

use numbers::Answer;
use numbers::answers::earlier;
use writer_send_buffer::{Told, Woken, WriterSendBuffer};

// Whether the flow record is coherent is asked with the rest.
pub(crate) fn with_flow(answer: Answer, flow: WriterSendBuffer) -> Answer
    ensures { result ≡ beside_flow answer flow }
{
    earlier(answer, Answer::coherence(flow.is_coherent()))
}

// After a call that is answered so: where it is refused, the frontier isn't stored.
pub(crate) fn after(answer: Answer, woken: Woken, flow: WriterSendBuffer) -> Woken
    ensures { result ≡ after answer woken flow }
{
    if answer.is_done() {
        return woken;
    }
    Woken {
        told: Told { answer, yes: false },
        flow,
    }
}
