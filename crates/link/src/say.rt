// What only this program prints: the decoder's answer and its settings.
use calls::Refusal;
use decoder::Ending;
use settings::Settings;
use std::io;

// The decoder's answer: the iteration and the reason, or the number of its refusal.
pub fn outcome(rt: &impl Print, outcome: Result<Ending, Refusal>) -> io::Result<()> {
    match outcome {
        Ok(Ending { iterations, reason }) => print!(rt;
            " answer {iterations} {}",
            decoder::reason_number(reason)
        ),
        Err(refusal) => print!(rt; " answer refused {}", refusal as u32),
    }
}

pub fn settings(rt: &impl Print, settings: Settings) -> io::Result<()> {
    print!(rt;
        " m={} C={} k={} T={}",
        settings.m, settings.ceiling, settings.scale, settings.limit
    )?;
    print!(rt;
        " criterion {} operand {}",
        settings.criterion, settings.operand
    )
}
