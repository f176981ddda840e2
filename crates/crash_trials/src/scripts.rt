// The scripts that are broken off. Each formats, and writes lines 0, 1 and 127 alone.

/// A script by a name of its own.
#[derive(Clone, Copy, Drop)]
pub struct Script {
    pub name: &'static str,
    /// What stands behind `format`.
    pub text: &'static str,
}

/// The scripts.
pub const SCRIPTS: [Script; 10] = [
    Script {
        name: "nothing written",
        text: "",
    },
    Script {
        name: "one save",
        text: "write 0 11\nsave\nwrite 0 22\n",
    },
    Script {
        name: "two saves",
        text: "write 0 11\nsave\nwrite 0 22\nwrite 1 33\nsave\nwrite 127 44\nsave\n",
    },
    Script {
        name: "a write within a save",
        text: "step\nstep\nstep\nwrite 127 33\nstep\nstep\nstep\nstep\nstep\n",
    },
    Script {
        name: "a save that is made again",
        text: "write 0 11\nsense 9000\narm\nsave\nwrite 1 22\ndisarm\nsave\nwrite 0 33\n",
    },
    Script {
        name: "armed",
        text: "sense 9000\narm\nwrite 0 11\nwrite 1 22\nwrite 0 33\n",
    },
    Script {
        name: "armed while a save runs",
        text: "sense 9000\narm\nstep\nstep\nstep\nwrite 127 33\nstep\nstep\nstep\nstep\nstep\n",
    },
    Script {
        name: "a low reading",
        text: "sense 3854\narm\nwrite 0 11\nsense 3853\nwrite 0 22\nstep\nstep\nstep\nstep\nsave\nmark\n",
    },
    Script {
        name: "armed, and a write in its array",
        text: "sense 9000\narm\nwrite 0 11\nwrite 1 22\nwork 1 2\nwrite 1 33\n",
    },
    Script {
        name: "a save that failed, made again",
        text: "write 0 11\nfuse 7\nsave\nsense 9000\narm\nfuse off\nsave\narm\nwrite 1 22\n",
    },
];
