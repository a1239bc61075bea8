// A test of a file.
ghost use Rattle.std.specs.Prelude.{◌≡◌, None};
ghost use Rattle.std.specs.Result.{result_err};
ghost use Rattle.files.specs.Sections.{must};

// Where the test fails, the place is the error; what kind of fault it is, is said once, where the part of the file is checked.
pub(crate) fn must(test: bool, place: usize) -> Result<(), usize>
    ensures { result_err result ≡ must test place None }
{
    if test { Ok(()) } else { Err(place) }
}
