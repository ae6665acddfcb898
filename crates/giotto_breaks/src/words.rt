//! The rules in words.

/// The rule with this number in words, as the language's document has it. Empty if no rule has this number.
pub fn words_of_rule(rule: usize) -> &'static str {
    match rule {
        1 =>
            "no name is declared twice among sensors, actuators, outputs, tasks and modes; no output is twice in one task's list; a task's inputs and states have different names, none of them declared in these five groups; no two actuators have one line",
        2 =>
            "every name in a task's output list is an output; `actfreq` writes an actuator; `exitfreq` names a mode, and its destinations are outputs; `taskfreq` names a task; every name in a driver's guard or expressions is a sensor, an actuator or an output",
        3 =>
            "a body assigns only its task's outputs and states, and reads only its task's inputs, states and outputs",
        4 => "a period is 1 to 1,000,000; a frequency is at least 1 and divides its mode's period",
        5 => "no task is invoked twice in one mode",
        6 => "no two tasks that one mode invokes share an output",
        7 => "no actuator is updated twice in one mode",
        8 => "an invocation has as many arguments as its task has inputs",
        9 =>
            "guards and expressions of an actuator update read mode ports of their mode only; those of switches and invocations read mode ports of their mode and sensors only; a switch's destinations are mode ports of its target, none twice",
        10 =>
            "for a switch of frequency w in a mode of period P: each task that the mode invokes with a period p that doesn't divide P / w is invoked by the target mode with the same period p",
        11 => "`start` names a mode",
        _ => "",
    }
}
