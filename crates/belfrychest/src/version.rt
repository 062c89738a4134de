// The number of the interface. By it a caller finds out whether the archive is the one that its
// declarations were written for.
ghost use Rattle.std.specs.Prelude.{◌≡◌};
ghost use Rattle.belfrychest.specs.Version.{VERSION};

// bin/tables copies the number from the file VERSION to this line.
pub const VERSION: u32 = 6;

// Returns the number of the interface that this archive was built with.
pub fn belfry_version() -> u32
    ensures { result ≡ VERSION }
{
    VERSION
}
