ghost use Rattle.std.specs.Prelude.{◌≡◌};
ghost use Rattle.cmdline.specs.Usage.{usage};

/// How each command is called, a line each.
pub fn usage() -> &'static str
    ensures { result.now ≡ usage }
{
    "usage: pengines session\n       pengines local GOAL [--limit N] [--application A]\n       pengines check GOAL [--application A]\n       pengines demo N [--chunk C]\n       pengines serve --port P [--doors D] [--workers W] [--slots S] [--connections K] [--idle MS]\n       pengines rpc HOST PORT GOAL [--chunk C] [--limit N] [--application A]\n"
}
