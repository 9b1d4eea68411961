// The three releases.
ghost use Rattle.std.specs.Prelude.{◌≡◌, ◌≤◌};
ghost use Rattle.generated_release.specs.Options as spec;

use identity::Version;

/// One of the three releases of a generated run.
#[derive(Clone, Copy, Debug, PartialEq, Eq)]
pub enum GeneratedRelease {
    One,
    Two,
    Three,
}

impl GeneratedRelease {
    /// Its number, which is the first of its version and that of its view.
    pub fn number(self) -> u16
        ensures { result ≡ spec.number_of self }
    {
        match self {
            GeneratedRelease::One => 1,
            GeneratedRelease::Two => 2,
            GeneratedRelease::Three => 3,
        }
    }

    /// Its version.
    pub fn version(self) -> Version
        ensures { result ≡ spec.version_of self }
    {
        Version {
            a: self.number(),
            b: 0,
            c: 0,
            d: 0,
        }
    }

    /// The folder that it is published in.
    pub fn folder(self) -> &'static [u8]
        ensures { result.now ≡ spec.folder_of self }
    {
        match self {
            GeneratedRelease::One => b"one",
            GeneratedRelease::Two => b"two",
            GeneratedRelease::Three => b"three",
        }
    }

    /// The name of its deployment manifest.
    pub fn deployment(self) -> &'static [u8]
        ensures { result.now ≡ spec.deployment_at self }
    {
        match self {
            GeneratedRelease::One => b"one/demo.application",
            GeneratedRelease::Two => b"two/demo.application",
            GeneratedRelease::Three => b"three/demo.application",
        }
    }

    /// The name of its application manifest.
    pub fn application(self) -> &'static [u8]
        ensures { result.now ≡ spec.application_at self }
    {
        match self {
            GeneratedRelease::One => b"one/Application Files/demo_1_0_0_0/f000.txt.manifest",
            GeneratedRelease::Two => b"two/Application Files/demo_2_0_0_0/f000.txt.manifest",
            GeneratedRelease::Three => b"three/Application Files/demo_3_0_0_0/f000.txt.manifest",
        }
    }

    /// The address that it is installed from.
    pub fn url(self) -> &'static [u8]
        ensures { result.now ≡ spec.url_of self }
    {
        match self {
            GeneratedRelease::One => b"http://demo.test/one/demo.application",
            GeneratedRelease::Two => b"http://demo.test/two/demo.application",
            GeneratedRelease::Three => b"http://demo.test/three/demo.application",
        }
    }
}
