//! The checks of a partition list and of an app image.
ghost use Rattle.std.specs.Prelude.{◌≡◌};
ghost use Rattle.partitions.specs.Answer.{answer_of as list_answer};
ghost use Rattle.partitions.specs.PartitionList.{check as check_list};
ghost use Rattle.app_image.specs.Example.{board_of};
ghost use Rattle.app_image.specs.Refusal.{answer_of as image_answer};
ghost use Rattle.app_image.specs.Check.{check as check_image};
ghost use Rattle.c_api.specs.Interface.{answer, to_c};

/// Tests a partition list, for a flash of that length: 0 with the number of slots and 1 where factory is listed, or 1.
#[unsafe(no_mangle)]
pub extern "C" fn ota_check_list(list: &[u32], capacity: usize, out: &mut [u32; 2]) -> u32
    ensures { answer result out.new ≡ to_c 2 (list_answer (check_list list.now capacity)) }
{
    c_api::ota_check_list(list, capacity, out)
}

/// Checks an image, for a board: 0 with length, entry, version and segments, or 20 to 31 with the place.
#[unsafe(no_mangle)]
pub extern "C" fn ota_check_image(image: &[u8], chip: u16, revision: u16, out: &mut [u64; 4]) -> u32
    ensures { answer result out.new ≡ to_c 4 (image_answer (check_image image.now (board_of chip revision))) }
{
    c_api::ota_check_image(image, chip, revision, out)
}
