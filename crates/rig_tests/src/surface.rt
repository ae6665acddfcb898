//! Each public call of the libraries once, lowest crate first: with ample memory, and with marks for `scripts/check-calls`.
//!
//! That script runs each test as often as its marked calls make requests for memory, and refuses one of them, or it and all later ones. A
//! call that is out of memory leaves everything as before, and has its expected result when it is made again. A call that is marked as
//! taking no memory may make no request.
//!
//! `programs` is for giotto_tasks, giotto_read and giotto_check, `rigs` for rig_config and tenant_grants, `tenants` for tenant_state and
//! instant_engine, `hosts` for host_core, `books` for locked_book, and `sessions` for rig_sessions. Expected values come from worked
//! examples, never from the program.
//!
//! Other tests make these calls:
//!
//! | Calls | Test | Without memory |
//! |---|---|---|
//! | `Trace::new`, `push`, `list`, `copy` | `traces` | marked |
//! | `Command::copy`, `Reply::copy`, `command_of`, `print_reply` | `copies` | marked |
//! | `Desk::pass`, `call`, `tick`, `done`, `lines`, `archive`, `settle`, `close` | desk_tests | `scripts/check-memory` |
//! | `Gate`, `Free`, `Pool::start`, `send`, `stop` | desk_tests | `scripts/check-refusals` |
//! | `Calls`, `talk` | desk_tests | `scripts/check-refusals` |
//! | `script` | `readers` | `scripts/check-script-memory` |
//! | `serve` | `scripts/check-server` | `scripts/check-refusals` |

mod books;
mod hosts;
mod programs;
mod rigs;
mod sessions;
mod tenants;
