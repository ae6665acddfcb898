//! The table of all commands.

/// The text of `help`: a row for each command that a session answers, and for those that the client adds.
pub const HELP: &str = "\
load TEXT                          read a program, which `start` then runs
load < FILE                        the same with the text of FILE, which may have several lines and // comments
replace TEXT, replace < FILE       replace the running program at the start of the next period of its mode
start                              run the program from the next instant on
stop                               stop the program
show mode                          show the state, the mode, and the mode time of the next instant
show port NAME                     show the value of a sensor, an actuator or an output
show port TASK.NAME                show the value of an input or a state of a task
show all                           show all ports with their values
trace                              show the last records of what happened, oldest first
offer NAME to TENANT               let a tenant bind a sensor to this actuator
offer NAME to TENANT from LO to HI the same, with the value kept from LO to HI
unoffer NAME to TENANT             withdraw an offer
bind NAME from TENANT.NAME         give a sensor the value of another tenant's actuator
unbind NAME                        remove a bind
rows                               show the offers and the binds
quit                               end the session
help                               show this table
Each command is answered in one line: `ok ..`, or `err ..` with the reason. After any `err` but `err memory` nothing has changed.
";
