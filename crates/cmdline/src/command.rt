use term_core::App;

/// A command with what its words give it, defaults filled in.
#[derive(Clone, Copy, Drop, PartialEq, Eq)]
pub enum Command<'w> {
    /// `session`: runs the script on standard input.
    Session,
    /// `local GOAL`: runs a goal over the source on standard input.
    Local {
        /// The goal's text, not empty.
        goal: &'w str,
        /// The most steps that the goal makes: from 1 to the application's greatest, by default
        /// 1,000,000 or the application's greatest where that is less.
        limit: u64,
        /// The application, by default the sandbox.
        app: App,
    },
    /// `check GOAL`: tells whether a goal may be asked of the source on standard input.
    Check {
        /// The goal's text, not empty.
        goal: &'w str,
        /// The application, by default the sandbox.
        app: App,
    },
    /// `demo N`: runs an example of a size of its own, here and over HTTP.
    Demo {
        /// How many people the example has: from 1 to 10,000.
        people: u32,
        /// How many answers come at a time: from 1 to 1,000, by default 100.
        chunk: u32,
    },
    /// `serve --port P`: serves pengines over HTTP.
    Serve {
        /// The port of TCP, from 1.
        port: u16,
        /// How many connections are served at once: from 1 to 64, by default 16.
        doors: u32,
        /// How many threads run queries beside those: from 0 to 64, by default 4.
        workers: u32,
        /// How many pengines of the sandbox live at once: from 1 to 256, by default 256.
        slots: u32,
        /// How many connections each door serves before it ends: from 1 to 1,000,000, by default
        /// 1,000,000.
        connections: u32,
        /// The milliseconds after which a pengine that its client leaves alone is destroyed: from 0,
        /// the default, for never, to 999,999,999.
        idle: u64,
    },
    /// `rpc HOST PORT GOAL`: asks a goal of a server, over the source on standard input.
    Rpc {
        /// The server's name or address, not empty.
        host: &'w str,
        /// The server's port of TCP, from 1.
        port: u16,
        /// The goal's text, not empty.
        goal: &'w str,
        /// How many answers come at a time: from 1, the default, to 1,000.
        chunk: u32,
        /// The most steps that the goal makes, as in `Local`.
        limit: u64,
        /// The application, by default the sandbox.
        app: App,
    },
}
