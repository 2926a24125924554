//! Laws of every lawful list of events from a new cell: restarts, stops in a step, losses, repeats, refused memory and rot.

ghost use Rattle.laws_versions.specs.ReplicaImages.{ImagesAreWrittenTo, ReplicasAreImages, SentImagesAreImages};

/// The image of mutations and one more is the image of the first ones, with what the last one writes from its place on.
pub fn images_are_written_to()
    ensures { ImagesAreWrittenTo }
{}

/// Where clocks and disks are kept, each replica, on a server's disk and as a restart finds it, is the image of some entries of its chunk's order up to its version, in order; its last serial is 0 or that of one of them.
pub fn replicas_are_images()
    ensures { ReplicasAreImages }
{}

/// So are the bytes of each Image that was sent.
pub fn sent_images_are_images()
    ensures { SentImagesAreImages }
{}
