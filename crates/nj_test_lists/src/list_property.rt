//! Properties of tests whose values are lists.

ghost use Rattle.std.specs.Prelude.{◌≡◌};
ghost use Rattle.nj_test_lists.specs.Cited.{property_name};

/// A property of a CTest test whose value is a list of strings.
#[derive(Clone, Copy, Debug, PartialEq, Eq)]
pub enum ListProperty {
    Environment,
    EnvironmentModification,
    RequiredFiles,
    AttachedFiles,
    AttachedFilesOnFail,
    FixturesRequired,
    FixturesSetup,
    FixturesCleanup,
    Depends,
}

impl ListProperty {
    /// Returns the name of the property in CMake.
    pub fn name(self) -> &'static str
        ensures { result.now ≡ property_name self }
    {
        match self {
            ListProperty::Environment => "ENVIRONMENT",
            ListProperty::EnvironmentModification => "ENVIRONMENT_MODIFICATION",
            ListProperty::RequiredFiles => "REQUIRED_FILES",
            ListProperty::AttachedFiles => "ATTACHED_FILES",
            ListProperty::AttachedFilesOnFail => "ATTACHED_FILES_ON_FAIL",
            ListProperty::FixturesRequired => "FIXTURES_REQUIRED",
            ListProperty::FixturesSetup => "FIXTURES_SETUP",
            ListProperty::FixturesCleanup => "FIXTURES_CLEANUP",
            ListProperty::Depends => "DEPENDS",
        }
    }
}
