// A line of MOTChallenge detection text.
ghost use Rattle.bedside_answers.specs.Mot.{LineInC};

use bedside_answers::mot::MotAnswer;

#[unsafe(no_mangle)]
pub extern "C" fn bedside_mot_line(line: &[u8], previous: u32, out: &mut [u8]) -> MotAnswer
    ensures { LineInC line.now previous out.old result out.new }
{
    MotAnswer::from(mot_line::mot_line(line, previous, out))
}
